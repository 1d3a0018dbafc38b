//! What no clause of ms_base says: the texts of refusals. The rows of levels and growth show that
//! the definitions which the contracts cite are the ones that were meant.
use super::same;
use ms_base::{Kind, Level, Refusal, Space, growth, level_for};
use std::alloc::{AllocError, Global};

/// The words of each level.
fn words_by_level() -> [u64; 13] {
    let mut words = [0; 13];
    for number in 0..13 {
        words[number] = Level::new(number as u8).words();
    }
    words
}

#[test]
fn each_level_has_half_the_words_of_the_one_before(rt: HostRuntime) {
    let wanted = [
        524288, 262144, 131072, 65536, 32768, 16384, 8192, 4096, 2048, 1024, 512, 256, 128,
    ];
    same(&rt, &words_by_level(), &wanted);
}

/// The number of the level of so many words.
fn number_for(words: u64) -> Option<u8> {
    level_for(words).map(|level| level.number())
}

/// The words of the first row whose level has another number than the row's.
fn missed(rows: &[(u64, Option<u8>)]) -> Option<u64> {
    for (words, number) in rows {
        if number_for(*words) != *number {
            return Some(*words);
        }
    }
    None
}

#[test]
fn a_request_takes_the_smallest_chunk_that_holds_it(rt: HostRuntime) {
    let rows = [
        (1, Some(12)),
        (128, Some(12)),
        (129, Some(11)),
        (256, Some(11)),
        (257, Some(10)),
        (513, Some(9)),
        (2048, Some(8)),
        (2049, Some(7)),
        (4097, Some(6)),
        (16384, Some(5)),
        (16385, Some(4)),
        (65536, Some(3)),
        (131072, Some(2)),
        (262144, Some(1)),
        (262145, Some(0)),
        (524288, Some(0)),
        (524289, None),
    ];
    same(&rt, &missed(&rows), &None);
}

/// The levels of the next chunk after none to six, and after as many as can be.
fn levels(kind: Kind, space: Space) -> [u8; 8] {
    let mut numbers = [growth(kind, space, u32::MAX).number(); 8];
    for chunks in 0..7 {
        numbers[chunks] = growth(kind, space, chunks as u32).number();
    }
    numbers
}

#[test]
fn the_last_entry_of_a_growth_table_repeats(rt: HostRuntime) {
    let told = [
        levels(Kind::Standard, Space::NonClass),
        levels(Kind::Boot, Space::NonClass),
        levels(Kind::Reflection, Space::NonClass),
        levels(Kind::Hidden, Space::NonClass),
        levels(Kind::Standard, Space::Class),
        levels(Kind::Boot, Space::Class),
        levels(Kind::Reflection, Space::Class),
        levels(Kind::Hidden, Space::Class),
    ];
    let wanted = [
        [10, 10, 10, 9, 8, 8, 8, 8],
        [0, 2, 2, 2, 2, 2, 2, 2],
        [11, 12, 12, 12, 12, 12, 12, 12],
        [12, 12, 12, 12, 12, 12, 12, 12],
        [11, 11, 10, 9, 8, 8, 8, 8],
        [2, 4, 4, 4, 4, 4, 4, 4],
        [12, 12, 12, 12, 12, 12, 12, 12],
        [12, 12, 12, 12, 12, 12, 12, 12],
    ];
    same(&rt, &told, &wanted);
}

/// Returns whether a refusal says a text.
fn says(alloc: Global, refusal: &Refusal, text: &str) -> Result<bool, AllocError> {
    let said = format!(in alloc; "{refusal}")?;
    Ok(said.as_str() == text)
}

/// The refusal of the first row that says another text than the row's.
fn missaid(alloc: Global, rows: &[(Refusal, &'static str)]) -> Result<Option<Refusal>, AllocError> {
    for (refusal, text) in rows {
        if !says(alloc, refusal, text)? {
            return Ok(Some(*refusal));
        }
    }
    Ok(None)
}

#[test]
fn a_refusal_says_why(rt: HostRuntime) {
    let rows = [
        (Refusal::ZeroWords, "zero words were asked for"),
        (Refusal::TooLarge, "more than 524288 words were asked for"),
        (Refusal::NotLive, "the block is not live here"),
        (Refusal::OutOfMemory, "out of memory"),
        (Refusal::NoLoader, "no loader has this name"),
        (Refusal::LoaderExists, "a loader has this name already"),
        (Refusal::NoBlock, "the loader has no block of this name"),
        (
            Refusal::BlockExists,
            "the loader has a block of this name already",
        ),
        (Refusal::IdsUsedUp, "all owner numbers are used up"),
    ];
    same(
        &rt,
        &missaid(rt.alloc(), &rows).expect(&rt, "memory is ample"),
        &None,
    );
}

#[test]
fn a_refusal_tells_its_numbers(rt: HostRuntime) {
    let over = Refusal::CommitLimit {
        committed: 60,
        limit: 63,
        need: 64,
    };
    let (opened, gathered) = (3, 2);
    let level = Level::new(7);
    let rows = [
        (
            over,
            "commit limit: 60 of 63 granules are committed, and 64 more are needed",
        ),
        (
            Refusal::ReserveLimit { nodes: 2, limit: 2 },
            "reserve limit: 2 of 2 nodes are reserved, and none has room",
        ),
        (
            Refusal::OutOfRange { words: 10 },
            "the index is past the block's 10 words",
        ),
        (
            Refusal::Unsettled { opened, gathered },
            "3 were opened and 2 gathered",
        ),
        (Refusal::NoRoom { level }, "no room at level 7"),
    ];
    same(
        &rt,
        &missaid(rt.alloc(), &rows).expect(&rt, "memory is ample"),
        &None,
    );
}
