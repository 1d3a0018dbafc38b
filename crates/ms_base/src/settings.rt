//! What a run is set up with.
ghost use Rattle.std.specs.Prelude.{◌≤◌};
ghost use Rattle.ms_base.specs.declared.sizes.TheConstants.{SLOTS, CLASS_SLOTS, MOST_GRANULES};

use crate::policy::Policy;
use crate::sizes::{CLASS_SLOTS, SLOTS};

/// The settings of a run: how many workers replay it, how many nodes of two root chunks may be
/// reserved, how many granules may be committed, by which policy, and how many nodes the class
/// space has. The ranges are this project's choice.
#[derive(Clone, Copy, Debug, PartialEq, Eq)]
pub struct Settings {
    /// Workers, 1 to 8.
    pub workers: u32,
    /// The limit of reserved nodes, 1 to 64.
    pub nodes: u32,
    /// The limit of committed granules, 1 to [`MOST_GRANULES`](crate::sizes::MOST_GRANULES).
    pub max_granules: u64,
    /// Whether memory that is given back stays committed.
    pub policy: Policy,
    /// The nodes of the class space, 0 to 16.
    pub class_nodes: u32,
    pub ghost workers_some: { 1 ≤ workers },
    pub ghost workers_few: { workers ≤ 8 },
    pub ghost nodes_some: { 1 ≤ nodes },
    pub ghost nodes_few: { nodes ≤ SLOTS },
    pub ghost granules_some: { 1 ≤ max_granules },
    pub ghost granules_few: { max_granules ≤ MOST_GRANULES },
    pub ghost class_nodes_few: { class_nodes ≤ CLASS_SLOTS },
}

impl Settings {
    /// What `metarun` runs with where no option says otherwise: one worker, 64 nodes, 8192
    /// granules, policy balanced, no class space.
    pub const DEFAULT: Settings = Settings {
        workers: 1,
        nodes: SLOTS,
        max_granules: 8192,
        policy: Policy::Balanced,
        class_nodes: 0,
    };
}
