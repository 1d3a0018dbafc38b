//! The kind of a loader, by the level of the first chunk that an arena of it asks for.
//!
//!     non-class    standard 12, reflection 13, hidden 14      (level 0 has 16 MB, level 14 1 KB)
//!     class        standard 13, reflection 14, hidden 14
//!
//! After HotSpot 17's metaspaceArenaGrowthPolicy.cpp. A request that needs more gets a larger chunk,
//! whose level shows no kind.
ghost use Rattle.std.specs.Prelude.{◌≡◌, IfSome};
ghost use Rattle.jvm_log.specs.Kinds.{first_level};

use ms_base::{Kind, Space};

/// The words of a root chunk of the JVM.
const ROOT_WORDS: u64 = 2_097_152;

/// The level of the smallest chunk of the JVM.
const LAST: u64 = 14;

/// Returns the kind of a loader whose arena of that space asks for its first chunk at that level,
/// for a request of so many words, if the level shows it. The first loader of a log is the boot
/// loader.
pub(crate) fn kind_by_level(space: Space, level: u64, words: u64) -> Option<Kind>
    ensures { IfSome result (λ kind. first_level space kind ≡ level) }
{
    let fitting = fitting_level(words);
    if level > fitting || level == fitting && level < LAST {
        return None;
    }
    match (space, level) {
        (Space::NonClass, 12) => Some(Kind::Standard),
        (Space::NonClass, 13) => Some(Kind::Reflection),
        (Space::NonClass, 14) => Some(Kind::Hidden),
        (Space::Class, 13) => Some(Kind::Standard),
        _ => None,
    }
}

/// Returns the level of the smallest chunk that has room for so many words.
fn fitting_level(words: u64) -> u64 {
    for back in 0..LAST {
        if (ROOT_WORDS >> (LAST - back)) >= words {
            return LAST - back;
        }
    }
    0
}
