//! Systems come and go: the exports that make one and end it, and the library's version.
ghost use Rattle.std.specs.Prelude.{◌≡◌, ◌≢◌, ◌↔◌, ◌⊎◌, None, IsSome};
ghost use Rattle.ms_c.specs.Answers.{IsMade};
ghost use Rattle.ms_c.specs.Settings.{AreUnfit};

use crate::answer::{BAD_SETTINGS, DONE, IN_USE, OUT_OF_MEMORY};
use crate::holding::Handle;
use crate::options::{Options, settings_of};
use ms_loaders::System;
use std::alloc::Global;

/// What the calls and structs for C are counted by: it rises where one of them changes.
const VERSION: u32 = 7;

/// Returns the library's version, for a program to compare with the NIZGRABUL_VERSION of its
/// header. Takes no memory.
#[unsafe(no_mangle)]
pub extern "C" fn nizgrabul_version() -> u32
    ensures { result ≡ VERSION }
{
    VERSION
}

/// Makes a system with no loader in an empty handle, under the settings that the options name.
/// Returns IN_USE exactly where the handle has a system already, in an empty one BAD_SETTINGS
/// exactly where an option is out of its range, and else DONE or OUT_OF_MEMORY; all but DONE leave
/// the handle as it was. Takes memory.
#[unsafe(no_mangle)]
pub extern "C" fn nizgrabul_new(alloc: Global, options: &Options, out: &mut Handle) -> u32
    ensures made { result ≡ DONE → IsMade options.now out.old.slot.held out.new.slot.held }
    ensures refused { result ≢ DONE → out.new.slot.held ≡ out.old.slot.held }
    ensures in_use { (result ≡ IN_USE) ↔ IsSome out.old.slot.held }
    ensures bad_settings { (result ≡ BAD_SETTINGS)
        ↔ ((out.old.slot.held ≡ None) × AreUnfit options.now) }
    ensures statuses { (result ≡ DONE) ⊎ (result ≡ OUT_OF_MEMORY)
        ⊎ (result ≡ IN_USE) ⊎ (result ≡ BAD_SETTINGS) }
{
    if let Some(system) = out.take(alloc) {
        out.put(system);
        return IN_USE;
    }
    let Some(settings) = settings_of(options) else {
        return BAD_SETTINGS;
    };
    let Ok(system) = System::new(alloc, settings) else {
        return OUT_OF_MEMORY;
    };
    match Box::new(alloc, system) {
        Ok(system) => {
            out.put(system);
            DONE
        }
        Err(failed) => {
            drop(failed);
            OUT_OF_MEMORY
        }
    }
}

/// Ends the handle's system, if there is one, and gives all its memory back; the handle is empty
/// then, and may be used anew. Takes no memory.
#[unsafe(no_mangle)]
pub extern "C" fn nizgrabul_delete(alloc: Global, handle: &mut Handle)
    ensures { handle.new.slot.held ≡ None }
{
    drop(handle.take(alloc));
}
