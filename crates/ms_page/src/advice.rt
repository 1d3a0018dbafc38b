//! What to try next after a run, each by the condition under which it helps.
//!
//! Kept true: a greater limit is advised only where lines were refused for want of it or where the
//! peak came within a root chunk of it. Takes no memory.
ghost use Rattle.std.specs.Prelude.{◌≡◌, ◌<◌, ◌^◌, ◌≤◌};
ghost use Rattle.ms_page.specs.Advice.{advice_of, commit_advice, granules_of, more_class_nodes};
ghost use Rattle.ms_page.specs.Advice.{more_nodes, policy_advice, raised, some_ask};

use crate::tiles::{Facts, LoaderCase};
use ms_base::{CLASS_SLOTS, MOST_GRANULES, Policy, ROOT_WORDS, SLOTS, Settings, granule};

/// What to do about the commit limit. This project's choice.
#[derive(Clone, Copy, Debug, PartialEq, Eq)]
pub enum CommitAdvice {
    /// Lines were refused at it: try again with so many granules.
    Raise { granules: u64 },
    /// Lines were refused at it, and it is the greatest that there is.
    Greatest,
    /// It was never met: from so many granules on each limit gives the same replies.
    Lower { granules: u64 },
    /// The peak came so near to it that a chunk may have been refused its growth, which no line
    /// says: try again with so many granules.
    Try { granules: u64 },
}

/// Which policy to compare with. This project's choice.
#[derive(Clone, Copy, Debug, PartialEq, Eq)]
pub enum PolicyAdvice {
    /// Balanced, as whole chunks are committed and stay so.
    Balanced,
    /// Aggressive, whose granules are smaller: so many words are committed and not in use.
    Aggressive { idle: u64 },
    /// None.
    Nothing,
}

/// What to try next. This project's choice.
#[derive(Clone, Copy, Debug, PartialEq, Eq)]
pub struct Advice {
    /// About the commit limit.
    pub commit: CommitAdvice,
    /// More nodes of the class space, where lines were refused for want of them: so many.
    pub class_nodes: Option<u32>,
    /// More nodes, where lines were refused for want of them: so many.
    pub nodes: Option<u32>,
    /// About the policy.
    pub policy: PolicyAdvice,
    /// How many nodes a purge at the end would give back.
    pub empty_nodes: u32,
    /// Whether loaders pile up, so that old ones are worth a look.
    pub old_loaders: bool,
    /// Whether lines were refused for what they ask, which the replies say.
    pub replies: bool,
}

/// Returns what to try next after a run of these facts with these settings.
pub fn advise(facts: &Facts, settings: &Settings) -> Advice
    ensures { result ≡ advice_of facts.now settings.now }
{
    Advice {
        commit: commit_advice(facts, settings),
        class_nodes: more_class_nodes(facts, settings),
        nodes: more_nodes(facts, settings),
        policy: policy_advice(facts, settings.policy),
        empty_nodes: facts.empty_nodes,
        old_loaders: facts.loader_case() == LoaderCase::Rising,
        replies: some_ask(facts),
    }
}

/// Returns what to do about the commit limit.
fn commit_advice(facts: &Facts, settings: &Settings) -> CommitAdvice
    ensures { result ≡ commit_advice facts.now settings.now }
{
    let limit = settings.max_granules;
    let root = granules(settings.policy, ROOT_WORDS);
    let peak = granules(settings.policy, facts.committed_peak);
    if facts.commit_refused > 0 {
        raised(limit)
    } else if peak + root <= limit {
        CommitAdvice::Lower {
            granules: peak.max(1),
        }
    } else {
        CommitAdvice::Try {
            granules: MOST_GRANULES.min(limit + root),
        }
    }
}

/// Advises to raise the limit, where it can be.
fn raised(limit: u64) -> CommitAdvice
    requires { limit ≤ 40960 }
    ensures { result ≡ raised limit }
{
    if limit < MOST_GRANULES {
        CommitAdvice::Raise {
            granules: MOST_GRANULES.min(2 * limit),
        }
    } else {
        CommitAdvice::Greatest
    }
}

/// Returns the granules of so many words, cut off.
fn granules(policy: Policy, words: u64) -> u64
    ensures granules { result ≡ granules_of policy words }
    ensures small { result < 2 ^ 53 }
{
    words / granule(policy)
}

/// Returns how many nodes of the class space to try, where lines were refused for want of them.
fn more_class_nodes(facts: &Facts, settings: &Settings) -> Option<u32>
    ensures { result ≡ more_class_nodes facts.now settings.now }
{
    if facts.class_refused > 0 && settings.class_nodes < CLASS_SLOTS {
        Some(CLASS_SLOTS.min((2 * settings.class_nodes).max(1)))
    } else {
        None
    }
}

/// Returns how many nodes to try, where lines were refused for want of them.
fn more_nodes(facts: &Facts, settings: &Settings) -> Option<u32>
    ensures { result ≡ more_nodes facts.now settings.now }
{
    if facts.reserve_refused > 0 && settings.nodes < SLOTS {
        Some(SLOTS.min(2 * settings.nodes))
    } else {
        None
    }
}

/// Returns which policy to compare with.
fn policy_advice(facts: &Facts, policy: Policy) -> PolicyAdvice
    ensures { result ≡ policy_advice facts.now policy }
{
    let is_spare = 10 * u128::from(facts.used) < 9 * u128::from(facts.committed);
    match policy {
        Policy::None => PolicyAdvice::Balanced,
        Policy::Balanced if is_spare => PolicyAdvice::Aggressive {
            idle: facts.committed - facts.used,
        },
        Policy::Balanced | Policy::Aggressive => PolicyAdvice::Nothing,
    }
}

/// Says whether lines were refused for what they ask.
fn some_ask(facts: &Facts) -> bool
    ensures { result ≡ some_ask facts.now }
{
    let wants = u128::from(facts.commit_refused)
        + u128::from(facts.reserve_refused)
        + u128::from(facts.class_refused)
        + u128::from(facts.other_wants);
    wants < u128::from(facts.refused)
}
