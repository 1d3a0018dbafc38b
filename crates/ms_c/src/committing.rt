//! The exports that allocate and return which granules became committed.
ghost use Rattle.std.specs.Prelude.{◌≡◌, ◌≢◌};
ghost use Rattle.ms_base.specs.declared.kind.Space.TheVariants.{NonClass, Class};
ghost use Rattle.ms_base.specs.declared.step.Step.TheVariants.{Alloc, Calloc};
ghost use Rattle.ms_base.specs.Request.{alloc_in};
ghost use Rattle.ms_c.specs.Answers.{Steps};
ghost use Rattle.ms_c.specs.Runs.{TellsCommitted};

use crate::answer::{Answer, DONE, answer_of};
use crate::holding::Handle;
use ms_base::{Reply, Space};
use ms_loaders::GranuleRun;
use std::alloc::Global;

/// Allocates a block as `nizgrabul_alloc` does, and writes to `out` the run of granules that it
/// committed: each that became committed lies in it, and each of it is committed now; none has
/// gone. Under the policies balanced and aggressive all of the run became committed; under none
/// some of it may have been before. All but DONE leave `out` as it was. Takes memory.
#[unsafe(no_mangle)]
pub extern "C" fn nizgrabul_alloc_with_run(
    alloc: Global,
    handle: &mut Handle,
    loader: u16,
    block: u32,
    words: u64,
    out: &mut GranuleRun,
) -> Answer
    ensures step { Steps handle.old.slot.held
        (Alloc loader block words) result handle.new.slot.held }
    ensures run { result.status ≡ DONE
        → TellsCommitted NonClass handle.old.slot.held out.new handle.new.slot.held }
    ensures refused { result.status ≢ DONE → out.new ≡ out.old }
{
    allocate(alloc, handle, Space::NonClass, loader, block, words, out)
}

/// Allocates a block in the class space, and writes the run of granules that it committed to `out`,
/// as `nizgrabul_alloc_with_run` does. Takes memory.
#[unsafe(no_mangle)]
pub extern "C" fn nizgrabul_calloc_with_run(
    alloc: Global,
    handle: &mut Handle,
    loader: u16,
    block: u32,
    words: u64,
    out: &mut GranuleRun,
) -> Answer
    ensures step { Steps handle.old.slot.held
        (Calloc loader block words) result handle.new.slot.held }
    ensures run { result.status ≡ DONE
        → TellsCommitted Class handle.old.slot.held out.new handle.new.slot.held }
    ensures refused { result.status ≢ DONE → out.new ≡ out.old }
{
    allocate(alloc, handle, Space::Class, loader, block, words, out)
}

/// Allocates a block in a space, and returns the run of granules that it committed.
fn allocate(
    alloc: Global,
    handle: &mut Handle,
    space: Space,
    loader: u16,
    block: u32,
    words: u64,
    out: &mut GranuleRun,
) -> Answer
    ensures step { Steps handle.old.slot.held
        (alloc_in space loader block words) result handle.new.slot.held }
    ensures run { result.status ≡ DONE
        → TellsCommitted space handle.old.slot.held out.new handle.new.slot.held }
    ensures refused { result.status ≢ DONE → out.new ≡ out.old }
{
    let Some(mut system) = handle.take(alloc) else {
        return Answer::NO_SYSTEM;
    };
    let answer = system.allocate_with_run(space, loader, block, words);
    handle.put(system);
    match answer {
        Ok(made) => {
            *out = made.run;
            Answer::of(made.start)
        }
        Err(refusal) => answer_of(Reply::Refused(refusal)),
    }
}
