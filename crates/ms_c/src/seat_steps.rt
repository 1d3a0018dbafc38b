//! The exports by which a seat's loader comes, allocates, frees and goes.
ghost use Rattle.std.specs.Prelude.{◌≡◌, IfSome, IfNone};
ghost use Rattle.ms_base.specs.declared.kind.Space.TheVariants.{NonClass, Class};
ghost use Rattle.ms_member.specs.Member.{AnswersNew, AnswersAlloc, AnswersFree};
ghost use Rattle.ms_member.specs.Taking.{AnswersUnloadAny};
ghost use Rattle.ms_c.specs.Answers.{numbers, not_held};
ghost use Rattle.ms_c.specs.Calls.{Calls, MakesLoaderAt, PurgesPool};

use crate::answer::{Answer, seated_answer};
use crate::kinds::kind_of;
use crate::seating::Seat;
use ms_base::{Kind, Space};
use std::alloc::Global;

/// Makes the seat's loader, with nothing of its own and with numbers for its blocks, over the pool
/// that the seat has. The kind is 0 standard, 1 boot, 2 reflection or 3 hidden; any other is
/// refused with BAD_KIND. Refused with NO_SEAT, LOADER_EXISTS, NOT_HELD and IDS_USED_UP. Takes no
/// memory.
#[unsafe(no_mangle)]
pub extern "C" fn nizgrabul_seat_new_loader(alloc: Global, seat: &mut Seat, kind: u32) -> Answer
    ensures { MakesLoaderAt seat.old.slot.held kind result seat.new.slot.held }
{
    match kind_of(kind) {
        Some(kind) => new_loader(alloc, seat, kind),
        None => Answer::BAD_KIND,
    }
}

/// Makes the seat's loader of a kind.
fn new_loader(alloc: Global, seat: &mut Seat, kind: Kind) -> Answer
    ensures { Calls (AnswersNew kind) seat.old.slot.held result seat.new.slot.held }
{
    match seat.take(alloc) {
        None => Answer::NO_SEAT,
        Some(mut member) => {
            let reply = member.new_loader(alloc, kind);
            seat.put(member);
            seated_answer(reply)
        }
    }
}

/// Unloads the seat's loader, with numbers for its blocks or without, over the pool that the seat
/// has: all its blocks and chunks go with it, and the seat may make another. Under the policies
/// balanced and aggressive just the granules stay committed that a chunk of another loader still
/// needs; under none all stay. Refused with NO_SEAT, NO_LOADER and NOT_HELD. Takes no memory.
#[unsafe(no_mangle)]
pub extern "C" fn nizgrabul_seat_unload(alloc: Global, seat: &mut Seat) -> Answer
    ensures { Calls AnswersUnloadAny seat.old.slot.held result seat.new.slot.held }
{
    match seat.take(alloc) {
        None => Answer::NO_SEAT,
        Some(mut member) => {
            let reply = member.unload();
            seat.put(member);
            seated_answer(reply)
        }
    }
}

/// Allocates a block of so many words, 1 to 524288, outside the class space, under a number that
/// the seat's loader has no block of; `value` is the word where it starts. One word makes a block
/// of two. Where the seat has the pool, granules may become committed. Where it doesn't, no lock is
/// tried: the block comes of the committed words that the loader has, and the call returns NOT_HELD
/// where these don't serve. Refused, in this order, with NO_SEAT, NO_LOADER, BLOCK_EXISTS,
/// ZERO_WORDS, TOO_LARGE, and with NOT_HELD, RESERVE_LIMIT, COMMIT_LIMIT or OUT_OF_MEMORY. Takes
/// memory.
#[unsafe(no_mangle)]
pub extern "C" fn nizgrabul_seat_alloc(
    alloc: Global,
    seat: &mut Seat,
    block: u32,
    words: u64,
) -> Answer
    ensures { Calls (AnswersAlloc NonClass block words) seat.old.slot.held result seat.new.slot.held }
{
    allocate(alloc, seat, Space::NonClass, block, words)
}

/// Allocates a block in the class space, as `nizgrabul_seat_alloc` does; a loader's blocks of both
/// spaces share their numbers. Takes memory.
#[unsafe(no_mangle)]
pub extern "C" fn nizgrabul_seat_calloc(
    alloc: Global,
    seat: &mut Seat,
    block: u32,
    words: u64,
) -> Answer
    ensures { Calls (AnswersAlloc Class block words) seat.old.slot.held result seat.new.slot.held }
{
    allocate(alloc, seat, Space::Class, block, words)
}

/// Allocates a block in a space.
fn allocate(alloc: Global, seat: &mut Seat, space: Space, block: u32, words: u64) -> Answer
    ensures { Calls (AnswersAlloc space block words) seat.old.slot.held result seat.new.slot.held }
{
    match seat.take(alloc) {
        None => Answer::NO_SEAT,
        Some(mut member) => {
            let reply = member.allocate(space, block, words);
            seat.put(member);
            seated_answer(reply)
        }
    }
}

/// Frees a block, whose words become a free block of the seat's loader; its number may be used
/// anew. No granule changes, and the pool isn't needed. Refused with NO_SEAT, NO_LOADER, and with
/// NO_BLOCK where the loader has no live block of the number. Takes no memory.
#[unsafe(no_mangle)]
pub extern "C" fn nizgrabul_seat_free(alloc: Global, seat: &mut Seat, block: u32) -> Answer
    ensures { Calls (AnswersFree block) seat.old.slot.held result seat.new.slot.held }
{
    match seat.take(alloc) {
        None => Answer::NO_SEAT,
        Some(mut member) => {
            let reply = member.free(block);
            seat.put(member);
            seated_answer(reply)
        }
    }
}

/// Gives the nodes of the pool that the seat has back in which no chunk is held; `value` is how many
/// they were. Those of the class space stay. No granule of a node that went is committed; only under
/// the policy none one can have been. Refused with NO_SEAT and NOT_HELD. Takes no memory.
#[unsafe(no_mangle)]
pub extern "C" fn nizgrabul_seat_purge(alloc: Global, seat: &mut Seat) -> Answer
    ensures { PurgesPool seat.old.slot.held result seat.new.slot.held }
{
    match seat.take(alloc) {
        None => Answer::NO_SEAT,
        Some(mut member) => {
            let gone = member.purge();
            seat.put(member);
            gone_answer(gone)
        }
    }
}

/// Returns how many nodes went, where the seat had the pool.
fn gone_answer(gone: Option<u32>) -> Answer
    ensures some { IfSome gone (λ nodes. result ≡ numbers 0 nodes 0 0) }
    ensures none { IfNone gone (result ≡ not_held) }
{
    match gone {
        Some(nodes) => Answer::of(u64::from(nodes)),
        None => Answer::NOT_HELD,
    }
}
