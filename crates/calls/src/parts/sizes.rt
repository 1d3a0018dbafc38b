//! The row of sizes: the words of levels and granules, and how loaders grow.
ghost use Rattle.std.specs.Prelude.{◌≤◌};

use crate::row::{line, mark};
use ms_base::{Kind, Level, Policy, Space, granule, growth, level_for};
use std::io;

/// Prints the row.
pub(crate) fn tell_all(rt: &HostRuntime) -> io::Result<()> {
    mark(rt, "sizes");
    for number in 0..13 {
        tell_level(rt, number);
    }
    for words in [0, 128, 129, 5000, 262145, 524288, 524289] {
        line(rt, "sizes words", &(words, level_for(words)));
    }
    for kind in [Kind::Standard, Kind::Boot, Kind::Reflection, Kind::Hidden] {
        tell_growth(rt, kind);
    }
    for policy in [Policy::Balanced, Policy::Aggressive, Policy::None] {
        line(rt, "sizes granule", &(policy, granule(policy)));
    }
    Ok(())
}

/// Prints the words of a level.
fn tell_level(rt: &HostRuntime, number: u8)
    requires { number ≤ 12 }
{
    let level = Level::new(number);
    line(rt, "sizes level", &(level.number(), level.words()));
}

/// Prints the levels of a loader's first chunks.
fn tell_growth(rt: &HostRuntime, kind: Kind) {
    for chunks in 0..5 {
        let level = growth(kind, Space::NonClass, chunks);
        let class_level = growth(kind, Space::Class, chunks);
        line(rt, "sizes growth", &(kind, chunks, level, class_level));
    }
}
