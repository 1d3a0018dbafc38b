//! The peaks of a run, kept beside it for full reports: how much of each thing it had at once at
//! most.
//!
//! Kept true: each number is what some state so far had, and none had more. Reads counters alone,
//! and visits no chunk and no loader. Takes no memory; nothing waits.
ghost use Rattle.std.specs.Prelude.{◌≡◌, [], ◌∷◌, List, max, true};
ghost use Rattle.std.specs.Option.{is_some};
ghost use Rattle.ms_base.specs.State.{Machine};
ghost use Rattle.ms_run.specs.Metering.{used_words_of};
ghost use Rattle.ms_run.specs.Peaks.{ArePeaksIfKept, usage_of};
ghost use Rattle.ms_run.specs.Replay.{AreKept};

use ms_answers::{Peaks, Verbosity};
use ms_loaders::System;

/// Begins peaks where reports shall be full, with what a system has that has no word in use.
pub fn begin(system: &System, verbosity: Verbosity) -> Option<Peaks>
    requires { used_words_of system.now ≡ 0 }
    ensures peaks { ArePeaksIfKept (system.now ∷ []) result }
    ensures kept { AreKept verbosity result }
{
    match verbosity {
        Verbosity::Basic => None,
        Verbosity::Full => Some(usage(system, 0)),
    }
}

/// Raises peaks to what a system has now, where they are kept; so many words are in use.
pub fn raise(peaks: &mut Option<Peaks>, system: &System, used: u64)
    requires { is_some peaks.old ≡ true → used ≡ used_words_of system.now }
    ensures peaks { (states : List Machine) → ArePeaksIfKept states peaks.old
        → ArePeaksIfKept (system.now ∷ states) peaks.new }
    ensures kept { is_some peaks.new ≡ is_some peaks.old }
{
    if let Some(most) = *peaks {
        *peaks = Some(greater(most, usage(system, used)));
    }
}

/// Returns what a system has of each thing; so many words are in use.
fn usage(system: &System, used: u64) -> Peaks
    requires { used ≡ used_words_of system.now }
    ensures { result ≡ usage_of system.now }
{
    let counts = system.counts();
    Peaks {
        granules: counts.granules,
        nodes: u64::from(counts.nodes) + u64::from(counts.class_nodes),
        used,
        loaders: system.loader_count(),
    }
}

/// Returns the greater of both, number by number.
fn greater(peaks: Peaks, now: Peaks) -> Peaks
    ensures granules { result.granules ≡ max peaks.granules now.granules }
    ensures nodes { result.nodes ≡ max peaks.nodes now.nodes }
    ensures used { result.used ≡ max peaks.used now.used }
    ensures loaders { result.loaders ≡ max peaks.loaders now.loaders }
{
    Peaks {
        granules: peaks.granules.max(now.granules),
        nodes: peaks.nodes.max(now.nodes),
        used: peaks.used.max(now.used),
        loaders: peaks.loaders.max(now.loaders),
    }
}
