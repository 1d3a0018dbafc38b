//! By subject, lowest first: sizes and refusals of the `base`, `nodes` and their granules, split
//! `trees`, `free_blocks`, the `pool` and `arenas` over it, `loaders` and systems, `worked` rows of
//! a system, `reports` and `traces` as texts, the pool behind a lock (`locked_pool`) and the `members`
//! that share it, the `used_meter`, `runs` by several workers, their `meeting`, and `courses` of runs with their
//! documents. Each says what no clause does.
mod arenas;
mod base;
mod courses;
mod free_blocks;
mod loaders;
mod locked_pool;
mod meeting;
mod members;
mod nodes;
mod observed;
mod pool;
mod reports;
mod runs;
mod traces;
mod trees;
mod used_meter;
mod worked;

ghost use Rattle.std.specs.Prelude.{◌≤◌};
ghost use Rattle.ms_base.specs.declared.sizes.TheConstants.{MOST_GRANULES};

use ms_base::{Policy, Settings};
use std::fmt::Debug;
use std::process::Abort;

/// Compares what was told with what was wanted. A test that calls it lets nothing go where they
/// differ.
fn same<T: Debug + PartialEq>(rt: &impl Abort, told: &T, wanted: &T) {
    assert_eq!(rt; told, wanted);
}

/// The settings of one worker with these limits: of nodes, of granules, and the nodes of the class
/// space.
fn limited(nodes: u32, max_granules: u64, policy: Policy, class_nodes: u32) -> Settings
    requires nodes_some { 1 ≤ nodes }
    requires nodes_few { nodes ≤ 64 }
    requires granules_some { 1 ≤ max_granules }
    requires granules_few { max_granules ≤ MOST_GRANULES }
    requires classes_few { class_nodes ≤ 16 }
{
    Settings {
        workers: 1,
        nodes,
        max_granules,
        policy,
        class_nodes,
    }
}
