//! The parts of a root: how many words one has, and a span of one.
ghost use Rattle.std.specs.Prelude.{◌≡◌, ◌<◌, ◌≤◌};
ghost use Rattle.ms_base.specs.declared.sizes.TheConstants.{ROOT_WORDS};
ghost use Rattle.ms_base.specs.Level.{size_of};

use ms_base::{Level, ROOT_WORDS, Span};

/// Returns the words of a part of a level.
pub(crate) fn words_of(level: u8) -> u64
    requires { level ≤ 12 }
    ensures size { result ≡ size_of level }
    ensures some { 0 < result }
    ensures small { result ≤ ROOT_WORDS }
{
    ROOT_WORDS >> level
}

/// Makes a span of a level's number.
pub(crate) fn part(start: u64, level: u8) -> Span
    requires { level ≤ 12 }
    ensures start { result.start ≡ start }
    ensures level { result.level ≡ level }
{
    Span {
        start,
        level: Level::new(level),
    }
}
