//! What no clause says, and no trace of the program shows: the largest reports that the limits
//! allow, the names of all refusals, and a map of given roots, byte for byte. Other reports, and
//! each part of a full one, the system tests compare.

use super::same;
use ms_answers::{Details, LoaderDetails, LoaderRow, SpaceTotals};
use ms_arena::ArenaTotals;
use ms_base::{Kind, Policy, Refusal, Reply, Settings};
use ms_loaders::{Answer, Replies, Totals};
use ms_pool::{Cell, RootMap};
use ms_report::{full_text, lines, map_text, tally};
use std::alloc::{AllocError, Global};
use std::process::Abort;

/// The report of `new 1 standard`, `alloc 1 1 10`.
pub(super) const ONE_BLOCK: &str = "Metaspace
  loaders                1
  nodes                  1
  reserved         1048576
  granules               1
  committed           8192
  chunks                 1
  capacity             512
  fronts               512
  used                  10
  live                  10
  free blocks            0
  waste                  0
Chunks by level
  level   words    held    free
      0  524288       0       1
      1  262144       0       1
      2  131072       0       1
      3   65536       0       1
      4   32768       0       1
      5   16384       0       1
      6    8192       0       1
      7    4096       0       1
      8    2048       0       1
      9    1024       0       1
     10     512       1       1
     11     256       0       0
     12     128       0       0
Loaders
   name        kind  chunks  capacity      used      live
      1    standard       1       512        10        10
";

/// More than any space has: each number as large as a limit lets one of the two be.
fn largest_space() -> SpaceTotals {
    SpaceTotals {
        nodes: 64,
        reserved: 83_886_080,
        granules: 40_960,
        committed: 83_886_080,
        chunks: 655_360,
        capacity: 83_886_080,
        fronts: 83_886_080,
        used: 83_886_080,
        live: 83_886_080,
        free_blocks: 0,
        waste: 0,
        held: [655_360; 13],
        free: [655_360; 13],
    }
}

/// More than any arena has: each number as large as a limit lets one of the two be.
fn largest_arena() -> ArenaTotals {
    ArenaTotals {
        chunks: 655_360,
        capacity: 83_886_080,
        fronts: 83_886_080,
        used: 83_886_080,
        live: 0,
        free_blocks: 83_886_080,
        waste: 0,
    }
}

/// The details of one loader that holds as much in each space.
fn largest_details(alloc: Global) -> Result<Details, AllocError> {
    let loader = LoaderDetails {
        name: 65_535,
        kind: Kind::Reflection,
        space: largest_arena(),
        class_space: largest_arena(),
    };
    let loaders = vec![in alloc; loader]?;
    let roots = Vec::new(alloc);
    Ok(Details { loaders, roots })
}

/// The row of one loader that holds as much.
fn largest_rows(alloc: Global) -> Result<Vec<LoaderRow>, AllocError> {
    let row = LoaderRow {
        name: 65_535,
        kind: Kind::Reflection,
        chunks: 655_360,
        capacity: 83_886_080,
        used: 83_886_080,
        live: 83_886_080,
    };
    Ok(vec![in alloc; row]?)
}

/// The totals of one loader that holds as much in each space.
fn largest(rows: Vec<LoaderRow>, details: Details) -> Totals {
    Totals {
        loaders: 65_536,
        space: largest_space(),
        class_space: largest_space(),
        rows,
        details: Some(details),
        peaks: None,
    }
}

/// Those totals, where there is memory.
fn largest_totals(alloc: Global) -> Result<Totals, AllocError> {
    let details = largest_details(alloc)?;
    match largest_rows(alloc) {
        Ok(rows) => Ok(largest(rows, details)),
        Err(error) => {
            drop(details);
            Err(error)
        }
    }
}

/// A report in which each number is as large as the limits let it be.
const LARGEST: &str = "Metaspace
  loaders            65536
  nodes                 64
  reserved        83886080
  granules           40960
  committed       83886080
  chunks            655360
  capacity        83886080
  fronts          83886080
  used            83886080
  live            83886080
  free blocks            0
  waste                  0
Chunks by level
  level   words    held    free
      0  524288  655360  655360
      1  262144  655360  655360
      2  131072  655360  655360
      3   65536  655360  655360
      4   32768  655360  655360
      5   16384  655360  655360
      6    8192  655360  655360
      7    4096  655360  655360
      8    2048  655360  655360
      9    1024  655360  655360
     10     512  655360  655360
     11     256  655360  655360
     12     128  655360  655360
Class space
  nodes                 64
  reserved        83886080
  granules           40960
  committed       83886080
  chunks            655360
  capacity        83886080
  fronts          83886080
  used            83886080
  live            83886080
  free blocks            0
  waste                  0
Class chunks by level
  level   words    held    free
      0  524288  655360  655360
      1  262144  655360  655360
      2  131072  655360  655360
      3   65536  655360  655360
      4   32768  655360  655360
      5   16384  655360  655360
      6    8192  655360  655360
      7    4096  655360  655360
      8    2048  655360  655360
      9    1024  655360  655360
     10     512  655360  655360
     11     256  655360  655360
     12     128  655360  655360
Loaders
   name        kind  chunks  capacity      used      live
  65535  reflection  655360  83886080  83886080  83886080
";

/// The usage of both spaces with each number as large as the limits let it be: 83886080 words are
/// 640 MB, of 335544320 that may be committed a quarter.
const LARGEST_USAGE: &str = "Usage
                     words        size  per cent
  reserved        83886080    640.0 MB         -
  committed       83886080    640.0 MB      25.0
  used            83886080    640.0 MB     100.0
  live            83886080    640.0 MB     100.0
  free blocks            0      0.0 KB       0.0
  waste                  0      0.0 KB       0.0
Class usage
                     words        size  per cent
  reserved        83886080    640.0 MB         -
  committed       83886080    640.0 MB      25.0
  used            83886080    640.0 MB     100.0
  live            83886080    640.0 MB     100.0
  free blocks            0      0.0 KB       0.0
  waste                  0      0.0 KB       0.0
Usage of both
                     words        size  per cent
  reserved       167772160   1280.0 MB         -
  committed      167772160   1280.0 MB      50.0
  used           167772160   1280.0 MB     100.0
  live           167772160   1280.0 MB     100.0
  free blocks            0      0.0 KB       0.0
  waste                  0      0.0 KB       0.0
";

/// Its sums of kinds, and what the loader holds.
const LARGEST_KINDS: &str = "Kinds
          kind  loaders  chunks  capacity    fronts      used      live  free blocks     waste
          boot        0       0         0         0         0         0            0         0
      standard        0       0         0         0         0         0            0         0
        hidden        0       0         0         0         0         0            0         0
    reflection        1 1310720 167772160 167772160 167772160         0    167772160         0
Loaders by space
   name        kind      space  chunks  capacity    fronts      used      live  free blocks     waste
  65535  reflection  non-class  655360  83886080  83886080  83886080         0     83886080         0
  65535  reflection      class  655360  83886080  83886080  83886080         0     83886080         0
";

/// The full report of the largest totals.
fn largest_report(alloc: Global) -> Result<String, AllocError> {
    let totals = largest_totals(alloc)?;
    let settings = Settings {
        workers: 1,
        nodes: 64,
        max_granules: 40_960,
        policy: Policy::None,
        class_nodes: 16,
    };
    let report = full_text(alloc, &totals, &settings, &tally(&[]));
    drop(totals);
    report
}

#[test]
fn the_largest_numbers_fit_their_columns(rt: HostRuntime) {
    let report = largest_report(rt.alloc()).expect(&rt, "memory is ample");
    expect_largest(&rt, report.as_str());
    drop(report);
}

/// Compares a report with the largest.
fn expect_largest(rt: &impl Abort, text: &str) {
    let is_fixed = text.starts_with(LARGEST);
    let found = (text.contains(LARGEST_USAGE), text.contains(LARGEST_KINDS));
    assert_eq!(rt; (is_fixed, found), (true, (true, true)), "{text}");
}

/// A reply of each sort.
const REPLIES: [Reply; 15] = [
    Reply::Ok,
    Reply::At(67_108_864),
    Reply::Value(18_446_744_073_709_551_615),
    Reply::Refused(Refusal::ZeroWords),
    Reply::Refused(Refusal::TooLarge),
    Reply::Refused(Refusal::CommitLimit {
        committed: 1,
        limit: 1,
        need: 1,
    }),
    Reply::Refused(Refusal::ReserveLimit { nodes: 1, limit: 1 }),
    Reply::Refused(Refusal::NotLive),
    Reply::Refused(Refusal::OutOfRange { words: 4 }),
    Reply::Refused(Refusal::OutOfMemory),
    Reply::Refused(Refusal::NoLoader),
    Reply::Refused(Refusal::LoaderExists),
    Reply::Refused(Refusal::NoBlock),
    Reply::Refused(Refusal::BlockExists),
    Reply::Refused(Refusal::IdsUsedUp),
];

/// A reply to the last line of a trace.
fn last(reply: Reply) -> Answer {
    Answer {
        line: 100_000,
        reply,
        report: None,
    }
}

/// A reply of each sort, the last line of a trace.
fn of_each_sort(alloc: Global) -> Result<Vec<Answer>, AllocError> {
    let mut answers = Vec::with_capacity(alloc, 15)?;
    for reply in REPLIES {
        answers.push(last(reply))?;
    }
    Ok(answers)
}

/// Their lines behind the second, which alone has an address.
const LINES: &str = "100000 value 18446744073709551615
100000 refused ZeroWords
100000 refused TooLarge
100000 refused CommitLimit
100000 refused ReserveLimit
100000 refused NotLive
100000 refused OutOfRange
100000 refused OutOfMemory
100000 refused NoLoader
100000 refused LoaderExists
100000 refused NoBlock
100000 refused BlockExists
100000 refused IdsUsedUp
";

/// Compares the text of the replies with how it begins and the lines behind.
fn expect_lines(
    rt: &(impl Abort + AllocGlobal),
    replies: &Replies,
    has_addresses: bool,
    begins: &str,
) -> Result<(), AllocError> {
    let told = lines(rt.alloc(), replies, has_addresses)?;
    let rest = told.as_str().strip_prefix(begins);
    same(rt, &rest, &Some(LINES));
    Ok(())
}

#[test]
fn replies_are_told_by_their_words(rt: HostRuntime) {
    let answers = of_each_sort(rt.alloc()).expect(&rt, "memory is ample");
    let replies = Replies { answers };
    let with = expect_lines(&rt, &replies, true, "100000 ok\n100000 at 67108864\n");
    let without = expect_lines(&rt, &replies, false, "100000 ok\n100000 ok\n");
    drop(replies);
    with.expect(&rt, "memory is ample");
    without.expect(&rt, "memory is ample");
}

/// The map of root 129, the upper one of slot 64, which is the first of the class space.
const MAP: &str = "Map
   slot  root  places of 8192 words
     64   129  Oou------------------------------------------------------------.
  - free, not committed
  . free, committed
  u lent, not committed
  o lent in part, committed
  O lent as a whole, committed
";

#[test]
fn each_cell_has_its_letter(rt: HostRuntime) {
    let mut cells = [Cell::Free; 64];
    cells[0] = Cell::LentWholly;
    cells[1] = Cell::LentPartly;
    cells[2] = Cell::LentUncommitted;
    cells[63] = Cell::FreeCommitted;
    let maps = [RootMap { root: 129, cells }];
    let told = map_text(rt.alloc(), &maps).expect(&rt, "memory is ample");
    same(&rt, &told.as_str(), &MAP);
}
