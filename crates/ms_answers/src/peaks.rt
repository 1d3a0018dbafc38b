//! The peaks of a run: how much of each thing it had at once at most, so far.
//!
//! Apart because no one state tells them: who runs the steps keeps them, and a full report has them
//! beside what the state tells. Takes no memory.

/// The most that a run had at once so far, each number by itself: one state that was reached has
/// it, and none has more. This project's choice.
#[derive(Clone, Copy, Debug)]
pub struct Peaks {
    /// Committed granules, of both spaces together, at most 40960.
    pub granules: u64,
    /// Reserved nodes, those of the class space among them, at most 80.
    pub nodes: u64,
    /// Words in use, in both spaces: the sum of the tops.
    pub used: u64,
    /// Loaders, at most 65536.
    pub loaders: u64,
}
