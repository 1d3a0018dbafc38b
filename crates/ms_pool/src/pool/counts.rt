//! What is committed and reserved, beside what may be: what a user asks who watches the limits.
ghost use Rattle.std.specs.Prelude.{◌≡◌};
ghost use Rattle.ms_pool.specs.LimitCounts.{limit_counts};

use super::Pool;

/// What is committed and reserved, beside what may be. The limits are this project's choice.
#[derive(Clone, Copy, Debug, PartialEq, Eq)]
pub struct LimitCounts {
    /// Committed granules, of both spaces together.
    pub granules: u64,
    /// How many granules may be committed, in both spaces together.
    pub granule_limit: u64,
    /// The words of a granule, 8192 or 2048.
    pub granule_words: u64,
    /// Reserved nodes, without those of the class space.
    pub nodes: u32,
    /// How many nodes may be reserved, without those of the class space, 1 to 64.
    pub node_limit: u32,
    /// Nodes of the class space, which stay reserved, 0 to 16.
    pub class_nodes: u32,
}

impl Pool {
    /// Returns what is committed and reserved, beside what may be. Takes no memory, and visits no
    /// chunk.
    pub fn counts(&self) -> LimitCounts
        ensures { result
            ≡ limit_counts self.now.slots self.now.committed self.now.class_committed self.now.limits }
    {
        let nodes = &self.lender.nodes;
        LimitCounts {
            granules: nodes.committed(),
            granule_limit: nodes.granule_limit(),
            granule_words: nodes.granule(),
            nodes: nodes.reserved(),
            node_limit: nodes.node_limit(),
            class_nodes: nodes.class_slots(),
        }
    }
}
