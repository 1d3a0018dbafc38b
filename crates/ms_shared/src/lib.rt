//! What threads share: the pool behind a lock, and a meter of used words.
//!
//! Apart because nothing below it waits for a thread, and nothing here knows an arena. Each thread
//! has a seat of the lock or of the meter, without which it calls nothing; what a seat serves,
//! counts and adds is its own, and all seats together are what is shared. Stands on
//! `atomic_table`, whose single steps keep a rule between them, and on `ms_pool`. `try_hold`
//! tries once for the lock and never waits; a `LockedPool` waits for it, and nothing else does.
#![tactic(auto)]

mod held_pool;
mod lock_rule;
mod locked_pool;
mod meter_rule;
mod seat;
mod shared_pool;
mod used_meter;

pub use held_pool::{HeldPool, HeldSeat};
pub use lock_rule::{LimitsView, LockView, SeatView, TalliesView};
pub use locked_pool::LockedPool;
pub use meter_rule::MeterView;
pub use seat::PoolSeat;
pub use shared_pool::SharedPool;
pub use used_meter::{MeterSeat, UsedMeter};
