//! The exports by which a seat's loader without names comes, takes blocks and gives them back.
//!
//! What C owes of a block that it gives back to a bare loader is the one `requires` of an export.
ghost use Rattle.std.specs.Prelude.{◌≡◌, true, false};
ghost use Rattle.ms_member.specs.Taking.{AnswersNewArenas, AnswersTake, AnswersGive, AnswersGiveBare};
ghost use Rattle.ms_arena.specs.Arena.{block_at};
ghost use Rattle.ms_c.specs.Calls.{Calls, MakesArenasAt, IsOwedBy, space_of};

use crate::answer::{Answer, seated_answer};
use crate::kinds::kind_of;
use crate::seating::Seat;
use ms_base::{Block, Kind, Space};
use std::alloc::Global;

/// Makes the seat's loader, over the pool that the seat has, without numbers for its blocks: a
/// block is known by its space, its start and its words. The kind is one of
/// `nizgrabul_seat_new_loader`'s; any other is refused with BAD_KIND. Refused with NO_SEAT,
/// LOADER_EXISTS, NOT_HELD and IDS_USED_UP. Takes no memory.
#[unsafe(no_mangle)]
pub extern "C" fn nizgrabul_seat_new_arenas(alloc: Global, seat: &mut Seat, kind: u32) -> Answer
    ensures { MakesArenasAt false seat.old.slot.held kind result seat.new.slot.held }
{
    match kind_of(kind) {
        Some(kind) => new_arenas(alloc, seat, kind, false),
        None => Answer::BAD_KIND,
    }
}

/// Makes the seat's loader as `nizgrabul_seat_new_arenas` does, but that it keeps no list of its live
/// blocks, which makes it cheaper: `nizgrabul_seat_take` allocates of it too, and
/// `nizgrabul_seat_give_bare` frees. Refused as that call is. Takes no memory.
#[unsafe(no_mangle)]
pub extern "C" fn nizgrabul_seat_new_bare(alloc: Global, seat: &mut Seat, kind: u32) -> Answer
    ensures { MakesArenasAt true seat.old.slot.held kind result seat.new.slot.held }
{
    match kind_of(kind) {
        Some(kind) => new_arenas(alloc, seat, kind, true),
        None => Answer::BAD_KIND,
    }
}

/// Makes the seat's loader without names, of a kind.
fn new_arenas(alloc: Global, seat: &mut Seat, kind: Kind, is_bare: bool) -> Answer
    ensures { Calls (AnswersNewArenas is_bare kind) seat.old.slot.held result seat.new.slot.held }
{
    match seat.take(alloc) {
        None => Answer::NO_SEAT,
        Some(mut member) => {
            let reply = member.new_arenas(alloc, kind, is_bare);
            seat.put(member);
            seated_answer(reply)
        }
    }
}

/// Allocates a block of so many words, 1 to 524288, of the seat's loader without numbers; `value`
/// is the word where it starts, in the class space or outside it. One word makes a block of two.
/// Where the seat has the pool, granules may become committed. Where it doesn't, no lock is tried:
/// the block comes of the committed words that the loader has, and the call returns NOT_HELD where
/// these don't serve. Refused, in this order, with NO_SEAT, NO_LOADER, ZERO_WORDS, TOO_LARGE, and
/// with NOT_HELD, RESERVE_LIMIT, COMMIT_LIMIT or OUT_OF_MEMORY. Takes memory.
#[unsafe(no_mangle)]
pub extern "C" fn nizgrabul_seat_take(
    alloc: Global,
    seat: &mut Seat,
    class_space: bool,
    words: u64,
) -> Answer
    ensures { Calls (AnswersTake (space_of class_space) words) seat.old.slot.held result
        seat.new.slot.held }
{
    match seat.take(alloc) {
        None => Answer::NO_SEAT,
        Some(mut member) => {
            let reply = member.take(space_in(class_space), words);
            seat.put(member);
            seated_answer(reply)
        }
    }
}

/// Frees the live block of the seat's loader without numbers that starts there and has so many
/// words, at least two: its words become a free block of the loader. No granule changes, and the
/// pool isn't needed. Refused with NO_SEAT, NO_LOADER, and with NOT_LIVE exactly where the loader
/// has no such live block in that space, and then nothing changes; a bare loader is refused with
/// NO_LOADER. Takes no memory.
#[unsafe(no_mangle)]
pub extern "C" fn nizgrabul_seat_give(
    alloc: Global,
    seat: &mut Seat,
    class_space: bool,
    start: u64,
    words: u64,
) -> Answer
    ensures { Calls (AnswersGive (space_of class_space) (block_at start words)) seat.old.slot.held
        result seat.new.slot.held }
{
    match seat.take(alloc) {
        None => Answer::NO_SEAT,
        Some(mut member) => {
            let reply = member.give(space_in(class_space), Block { start, words });
            seat.put(member);
            seated_answer(reply)
        }
    }
}

/// Frees a block of the seat's bare loader, as `nizgrabul_seat_give` does of another. The program
/// owes that `nizgrabul_seat_take` returned that start for so many words, or for one where these are
/// two, in that space, to this loader, and that the block was not given back since: nothing checks
/// it. Refused with NO_SEAT, and with NO_LOADER where there is no bare loader. Takes no memory.
#[unsafe(no_mangle)]
pub extern "C" fn nizgrabul_seat_give_bare(
    alloc: Global,
    seat: &mut Seat,
    class_space: bool,
    start: u64,
    words: u64,
) -> Answer
    requires { IsOwedBy seat.old.slot.held (space_of class_space) (block_at start words) }
    ensures { Calls (AnswersGiveBare (space_of class_space) (block_at start words))
        seat.old.slot.held result seat.new.slot.held }
{
    match seat.take(alloc) {
        None => Answer::NO_SEAT,
        Some(mut member) => {
            let reply = member.give_bare(space_in(class_space), Block { start, words });
            seat.put(member);
            seated_answer(reply)
        }
    }
}

/// Returns the space that is meant.
fn space_in(class_space: bool) -> Space
    ensures { result ≡ space_of class_space }
{
    if class_space {
        Space::Class
    } else {
        Space::NonClass
    }
}
