//! Which node slots are reserved, and which granules are committed.
//!
//! Apart because it needs no chunk to be said: two sets of numbers with their limits, as HotSpot
//! has CommitLimiter and CommitMask apart from its nodes. Stands on `ms_base`, whose refusals it
//! answers and whose limits its model has. Nothing here takes memory, and nothing waits.
#![tactic(auto)]

pub mod laws;
mod mask;
mod nodes;

pub use mask::Mask;
pub use nodes::Nodes;
