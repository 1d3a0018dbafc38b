//! What every crate of the metaspace speaks of: levels and their words, chunks, kinds of loaders,
//! steps and refusals.
//!
//!     level 0   |                    524288 words, a root chunk                     |
//!     level 1   |             262144               |             262144             |
//!     level 2   |     131072      |     131072     |     131072     |     131072    |
//!      ..                                  down to 128 words at level 12
//!
//! Apart because the model in `specs/` stands below every crate: its definitions are cited by all,
//! and it cites none. Nothing here takes memory.
#![tactic(auto)]

mod kind;
pub mod laws;
mod level;
mod policy;
mod refusal;
mod settings;
mod sizes;
mod span;
mod step;

pub use kind::{Kind, Space, growth};
pub use level::{Level, level_for};
pub use policy::{Policy, granule};
pub use refusal::Refusal;
pub use settings::Settings;
pub use sizes::{CLASS_SLOTS, MOST_GRANULES, NODE_WORDS, ROOT_WORDS, SLOTS};
pub use span::{Block, Chunk, Span};
pub use step::{Reply, Step};
