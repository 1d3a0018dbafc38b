//! The rule of a pool behind a lock, and the names of the steps on it.
//!
//!     seat       parts  serves                  counts   has the pool
//!     first        2    1: [0, 512) ..  3: ..      2        yes  ---  the word: 1, the slot empty
//!     second       2    2: [1024, 2048) ..         1        no
//!
//! Kept true between any two steps: there is one pool, in the slot where the word is 0, and else
//! with one seat. Each owner number that it gave out is served by one seat, once, with the pool's
//! record of the owner; its open accounts and tallies are the sums of the seats'. One history of
//! events leads from the lock's first pool to it, of which each seat has just its own. Views,
//! plays, cuts and joins have no bytes and do nothing when they run. Nothing here takes memory or
//! waits.
ghost use Rattle.ms_shared.specs.LockRule.{IsLocked, Tries, LetsGo, first_view, own_seat, other_seats, both, nothing};
ghost use Rattle.ms_shared.specs.LockRule.{view_without, note_of, less_part, spare_part, Notes, PutsBack};

use atomic_table::{Join, Play, Split, TableRule};
use ms_base::{Chunk, Policy};
use ms_pool::Pool;
use std::collections::LinkedList;
use std::marker::{Brand, Model, PhantomData};
use std::snapshot::Snapshot;

/// A pool's limits, as views have them. No value of it is made.
pub struct LimitsView {
    nodes: u32,
    granules: u64,
    policy: Policy,
    class_nodes: u32,
}

impl Model for LimitsView {
    ghost use Rattle.ms_base.specs.State.{Limits};

    ghost Value = { Limits };

    ghost view = { λ limits. record {
      nodes = limits.nodes;
      granules = limits.granules;
      policy = limits.policy;
      class_nodes = limits.class_nodes;
    } };
}

/// A pool's tallies, as views have them. No value of it is made.
pub struct TalliesView {
    take_commit: u64,
    take_reserve: u64,
    grow_commit: u64,
    grow_room: u64,
    open_ids: u64,
}

impl Model for TalliesView {
    ghost use Rattle.ms_pool.specs.Tallies.{Tallies};

    ghost Value = { Tallies };

    ghost view = { λ tallies. record {
      take_commit = tallies.take_commit;
      take_reserve = tallies.take_reserve;
      grow_commit = tallies.grow_commit;
      grow_room = tallies.grow_room;
      open_ids = tallies.open_ids;
    } };
}

/// What a seat of the lock knows of the pool. No value of it is made.
pub struct SeatView {
    /// The owners that it serves, each with its chunks in order of address.
    pub served: LinkedList<(u32, LinkedList<Chunk>)>,
    /// How many open accounts it counts that lie outside the class space.
    pub opened: u32,
    /// How many it counts of the class space.
    pub class_opened: u32,
    /// How often its calls were refused, each modulo 2^64.
    pub tallies: TalliesView,
    /// The limits of the pool.
    pub limits: LimitsView,
}

/// The view of a seat: its parts of the right to know all, its own events, what it knows, and the
/// pool while it has it. No value of it is made.
pub struct LockView {
    /// Two for each seat that it stands for.
    pub parts: u64,
    /// The numbers of these seats, each with the events that were made under it: the pool before
    /// and after.
    pub strands: LinkedList<(u64, LinkedList<(Pool, Pool)>)>,
    /// What the seat knows.
    pub knows: SeatView,
    /// The pool, from the moment in which it is taken until it is put back.
    pub taken: Option<Pool>,
}

// What the table is told once: how many seats are made, and the pool as it is then.
#[derive(Drop)]
pub struct LockKey {
    pub made: usize,
    pub pool: Snapshot<Pool>,
}

// The rule.
pub struct Locked;

impl TableRule<Option<Pool>, LockView, LockKey> for Locked {
    ghost holds = { λ key. IsLocked key.made key.pool.value };

    ghost first = { λ key. first_view key.made key.pool.value };
}

// The pool is taken, where no seat has it.
pub struct Tries;

impl Play<Option<Pool>, LockView> for Tries {
    ghost then = { Tries };
}

// The pool is put back.
pub struct LetsGo;

impl Play<Option<Pool>, LockView> for LetsGo {
    ghost then = { LetsGo };
}

/// Names the pool that a seat has once a call is made, where a proof picks it.
pub trait Holding {
    ghost use Rattle.ms_pool.specs.Ledger.{Ledger};

    ghost pool: { Ledger };
}

impl Holding for Brand {
    ghost use Rattle.ms_shared.specs.LockRule.{some_pool};
    ghost use Rattle.std.specs.Prelude.{None};

    ghost pool = { some_pool None };
}

// A call on the pool that the seat has is an event.
pub struct Notes<B> {
    pool: PhantomData<B>,
}

impl<B: Holding> Play<Option<Pool>, LockView> for Notes<B> {
    ghost then = { Notes B.pool };
}

// The pool is put back as it was taken or last noted.
pub struct PutsBack;

impl Play<Option<Pool>, LockView> for PutsBack {
    ghost then = { PutsBack };
}

// The seats that know nothing are cut off.
pub struct CutSeats;

impl Split<LockView> for CutSeats {
    ghost left = { own_seat };

    ghost right = { other_seats };
}

/// Names an account's owner and space, where a proof picks them.
pub trait Owner {
    ghost use Rattle.std.specs.Prelude.{ℕ};
    ghost use Rattle.ms_base.specs.declared.kind.Space.{Space};

    ghost owner: { ℕ };

    ghost space: { Space };
}

impl Owner for Brand {
    ghost use Rattle.ms_base.specs.declared.kind.Space.TheVariants.{NonClass};

    ghost owner = { 0 };

    ghost space = { NonClass };
}

// An account is cut off, with one of the count, as a note.
pub struct CutAccount<B> {
    owner: PhantomData<B>,
}

impl<B: Owner> Split<LockView> for CutAccount<B> {
    ghost left = { view_without B.owner B.space };

    ghost right = { note_of B.owner B.space };
}

// A part that knows nothing is cut off.
pub struct CutPart;

impl Split<LockView> for CutPart {
    ghost left = { less_part };

    ghost right = { spare_part };
}

// Two seats become one.
pub struct JoinViews;

impl Join<LockView> for JoinViews {
    ghost both = { both };

    ghost spent = { nothing };
}
