//! The exports that change a system: each is one step of the machine.
ghost use Rattle.ms_c.specs.Answers.{Steps, MakesLoader, Purges};
ghost use Rattle.ms_c.specs.Freeing.{FreesBlock};

use crate::answer::{Answer, answer_of, done_answer};
use crate::holding::Handle;
use crate::kinds::kind_of;
use ms_base::{Block, Step};
use std::alloc::Global;

/// Makes a loader with nothing of its own, under a number that no loader has. The kind is 0
/// standard, 1 boot, 2 reflection or 3 hidden; any other is refused with BAD_KIND. Refused with
/// LOADER_EXISTS, IDS_USED_UP and OUT_OF_MEMORY. Takes memory.
#[unsafe(no_mangle)]
pub extern "C" fn nizgrabul_new_loader(
    alloc: Global,
    handle: &mut Handle,
    loader: u16,
    kind: u32,
) -> Answer
    ensures { MakesLoader handle.old.slot.held loader kind result handle.new.slot.held }
{
    match kind_of(kind) {
        Some(kind) => step(alloc, handle, Step::New { loader, kind }),
        None => Answer::BAD_KIND,
    }
}

/// Unloads a loader: all its blocks and chunks go with it, and its number may be used anew. Under
/// the policies balanced and aggressive just the granules stay committed that a chunk of another
/// loader still needs; under none all stay. Refused with NO_LOADER alone. Takes no memory.
#[unsafe(no_mangle)]
pub extern "C" fn nizgrabul_unload(alloc: Global, handle: &mut Handle, loader: u16) -> Answer
    ensures { Steps handle.old.slot.held (Step.Unload loader) result handle.new.slot.held }
{
    step(alloc, handle, Step::Unload { loader })
}

/// Allocates a block of so many words, 1 to 524288, outside the class space, under a number that
/// the loader has no block of; `value` is the word where it starts. One word makes a block of two.
/// All its words lie in committed granules, and no other block of any loader overlaps it. Refused,
/// in this order, with NO_LOADER, BLOCK_EXISTS, ZERO_WORDS, TOO_LARGE, and with RESERVE_LIMIT,
/// COMMIT_LIMIT or OUT_OF_MEMORY. Takes memory.
#[unsafe(no_mangle)]
pub extern "C" fn nizgrabul_alloc(
    alloc: Global,
    handle: &mut Handle,
    loader: u16,
    block: u32,
    words: u64,
) -> Answer
    ensures { Steps handle.old.slot.held
        (Step.Alloc loader block words) result handle.new.slot.held }
{
    step(
        alloc,
        handle,
        Step::Alloc {
            loader,
            block,
            words,
        },
    )
}

/// Allocates a block in the class space, as `nizgrabul_alloc` does; a loader's blocks of both
/// spaces share their numbers. Takes memory.
#[unsafe(no_mangle)]
pub extern "C" fn nizgrabul_calloc(
    alloc: Global,
    handle: &mut Handle,
    loader: u16,
    block: u32,
    words: u64,
) -> Answer
    ensures { Steps handle.old.slot.held
        (Step.Calloc loader block words) result handle.new.slot.held }
{
    step(
        alloc,
        handle,
        Step::Calloc {
            loader,
            block,
            words,
        },
    )
}

/// Frees a block, whose words become a free block of its loader; its number may be used anew. No
/// granule changes. Refused with NO_LOADER, and with NO_BLOCK where the loader has no live block of
/// the number. Takes no memory.
#[unsafe(no_mangle)]
pub extern "C" fn nizgrabul_free(
    alloc: Global,
    handle: &mut Handle,
    loader: u16,
    block: u32,
) -> Answer
    ensures { Steps handle.old.slot.held (Step.Free loader block) result handle.new.slot.held }
{
    step(alloc, handle, Step::Free { loader, block })
}

/// Frees the live block of a loader that starts there and has so many words, at least two, as
/// `nizgrabul_free` does by its number, which may then be used anew. Refused with NO_LOADER, and
/// with NOT_LIVE where the loader has no such live block. Takes no memory, and visits each of the
/// loader's numbers until it is found.
#[unsafe(no_mangle)]
pub extern "C" fn nizgrabul_free_block(
    alloc: Global,
    handle: &mut Handle,
    loader: u16,
    start: u64,
    words: u64,
) -> Answer
    ensures { FreesBlock handle.old.slot.held loader start words result handle.new.slot.held }
{
    match handle.take(alloc) {
        None => Answer::NO_SYSTEM,
        Some(mut system) => {
            let answer = system.free_block(loader, Block { start, words });
            handle.put(system);
            done_answer(answer)
        }
    }
}

/// Gives back the nodes in which no chunk is held; `value` is how many they were. Those of the
/// class space stay. No granule of a node that went is committed; only under the policy none one
/// can have been. Takes no memory.
#[unsafe(no_mangle)]
pub extern "C" fn nizgrabul_purge(alloc: Global, handle: &mut Handle) -> Answer
    ensures { Purges handle.old.slot.held result handle.new.slot.held }
{
    match handle.take(alloc) {
        None => Answer::NO_SYSTEM,
        Some(mut system) => {
            let gone = system.purge();
            handle.put(system);
            Answer::of(gone as u64)
        }
    }
}

/// Takes a step of the handle's system.
fn step(alloc: Global, handle: &mut Handle, step: Step) -> Answer
    ensures { Steps handle.old.slot.held step result handle.new.slot.held }
{
    match handle.take(alloc) {
        None => Answer::NO_SYSTEM,
        Some(mut system) => {
            let reply = system.step(step);
            handle.put(system);
            answer_of(reply)
        }
    }
}
