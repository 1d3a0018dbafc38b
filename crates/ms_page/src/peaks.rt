//! The most that there was of each amount, over all columns.
//!
//! Kept true: each amount is that of some column, and none has more; only `reserved` is at least
//! what the class space's nodes have, which are there from before the first line. Takes no memory.
ghost use Rattle.std.specs.Prelude.{◌≡◌};
ghost use Rattle.ms_course.specs.Course.{greater_extent, greater_standing};
ghost use Rattle.ms_page.specs.Peaks.{peaks_of, with_reserved};

use ms_course::{Column, Extent, Standing};

/// Returns the most over the columns, amount by amount; that of nothing where there are none. This
/// project's choice.
pub fn peaks_of(columns: &[Column]) -> Standing
    ensures { result ≡ peaks_of columns.now }
{
    let mut peaks = Standing::NONE;
    for column in columns {
        peaks = greater(&peaks, &column.most);
    }
    peaks
}

/// Returns the peaks with so many words reserved at least, in both spaces and in the class space.
pub(crate) fn with_reserved(words: u64, peaks: Standing) -> Standing
    ensures { result ≡ with_reserved words peaks }
{
    Standing {
        both: Extent {
            reserved: peaks.both.reserved.max(words),
            ..peaks.both
        },
        class_space: Extent {
            reserved: peaks.class_space.reserved.max(words),
            ..peaks.class_space
        },
        loaders: peaks.loaders,
    }
}

/// Returns the greater of both, number by number.
fn greater(most: &Standing, now: &Standing) -> Standing
    ensures { result ≡ greater_standing most.now now.now }
{
    Standing {
        both: greater_words(&most.both, &now.both),
        class_space: greater_words(&most.class_space, &now.class_space),
        loaders: most.loaders.max(now.loaders),
    }
}

/// Returns the greater of both, amount by amount.
fn greater_words(most: &Extent, now: &Extent) -> Extent
    ensures { result ≡ greater_extent most.now now.now }
{
    Extent {
        reserved: most.reserved.max(now.reserved),
        committed: most.committed.max(now.committed),
        used: most.used.max(now.used),
        live: most.live.max(now.live),
    }
}
