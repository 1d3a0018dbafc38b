//! The rows of what threads share: a pool behind a lock, and a meter.
pub(crate) mod lock;
pub(crate) mod meter;
mod seats;

/// How many seats are made where they take memory.
const SEATS: usize = 3;
