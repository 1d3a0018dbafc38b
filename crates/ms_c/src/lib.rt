//! The machine for C: a system behind a handle, a member of a shared pool behind a seat, and an
//! export for each call.
//!
//!     handle ── System                      one thread at a time
//!     seat ──── Member ── loader            a thread for each, and one pool behind its lock:
//!     seat ──── Member ── loader            `hold` takes it by one try
//!                  `───────────── pool
//!
//! Each export takes the system, or the member, out of what C holds, makes one call of it and puts
//! it back; its clauses are that call's, over what is held before and after. Its docs and those of
//! `nizgrabul.h` are the same. A member's loader has names for its blocks, or knows them by where
//! they start, or is bare and knows none. One export has a `requires`, where a bare loader's block is
//! freed: to all others any numbers are allowed, and an empty handle or seat is a status. What a C
//! program owes besides is listed in the header. Apart because a static library can
//! be no other crate's. Stands on `ms_loaders` and `ms_member`. Nothing waits, and what takes memory
//! says so.
#![tactic(auto)]

mod answer;
mod committing;
mod holding;
mod kinds;
mod laws;
mod making;
mod options;
mod parts;
mod seat_arenas;
mod seat_slot;
mod seat_steps;
mod seat_telling;
mod seating;
mod sharing;
mod slot;
mod steps;
mod telling;
mod totals;
mod uncommitting;
