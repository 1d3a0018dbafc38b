//! The rows of an arena over a pool: it places a block, or allocates one; its words are written and
//! read, a block is freed, and the arena starts anew over another account.

use crate::pools::{account_lines, opened, tell_account, tell_pool};
use crate::probing::{Places, tell_places};
use crate::row::{Answer, Probed, Row, line, mark, tell, told, unprepared};
use ms_arena::Arena;
use ms_base::{Block, Kind, Refusal, Space};
use ms_pool::Pool;
use std::alloc::Global;
use std::io;
use std::marker::Model;

/// Prints the row.
pub(crate) fn tell_all(rt: &HostRuntime) -> io::Result<()> {
    let (mut pool, account) = opened(rt.alloc())?;
    let mut arena = Arena::new(rt.alloc(), account, Kind::Reflection);
    let (first, second) = (arena.alloc(&mut pool, 10), arena.alloc(&mut pool, 4000));
    let (Ok(first), Ok(second)) = (first, second) else {
        drop(arena);
        drop(pool);
        return Err(unprepared());
    };
    mark(rt, "arena");
    tell_words(rt, &mut arena, second);
    tell_freed(rt, &mut arena, first);
    tell_renewed(rt, &mut pool, arena, second);
    tell_new(rt, &mut pool);
    drop(pool);
    Ok(())
}

/// Writes words of a block, and reads them and others.
fn tell_words(rt: &HostRuntime, arena: &mut Arena, block: Block) {
    for (index, value) in [(0, 5), (1999, 6), (3999, 7), (4000, 8)] {
        line(
            rt,
            "arena write",
            &(index, arena.write(block, index, value)),
        );
    }
    for index in [0, 1, 1999, 3999, 4000] {
        line(rt, "arena read", &(index, arena.read(block, index)));
    }
    tell_arena(rt, arena);
}

/// Frees a block, twice.
fn tell_freed(rt: &HostRuntime, arena: &mut Arena, block: Block) {
    line(rt, "arena free", &arena.free(block));
    line(rt, "arena free", &arena.free(block));
    line(rt, "arena read freed", &arena.read(block, 0));
    tell_arena(rt, arena);
}

/// Has an arena start anew where it had a live block: it gives its account back, and has no block.
fn tell_renewed(rt: &HostRuntime, pool: &mut Pool, mut arena: Arena, block: Block) {
    line(rt, "arena small", &arena.is_small());
    match pool.open(Space::NonClass) {
        Ok(account) => {
            account_lines(rt, "arena account", &arena.renew(account, Kind::Hidden));
            line(rt, "arena read gone", &arena.read(block, 0));
            tell_arena(rt, &arena);
        }
        Err(_) => line(rt, "arena renew", &"no account is opened"),
    }
    drop(arena);
}

/// Makes an arena over a new account, and has the account back.
fn tell_new(rt: &HostRuntime, pool: &mut Pool) {
    let Ok(account) = pool.open(Space::Class) else {
        return line(rt, "arena new", &"no account is opened");
    };
    let arena = Arena::new(rt.alloc(), account, Kind::Boot);
    tell_arena(rt, &arena);
    account_lines(rt, "arena account", &arena.into_account());
}

/// Prints an arena: its kind, its sums, and its account.
fn tell_arena(rt: &HostRuntime, arena: &Arena) {
    line(
        rt,
        "arena of",
        &(arena.kind(), arena.used(), arena.totals()),
    );
    account_lines(rt, "arena account", arena.account());
}

/// Prints a pool and an arena over it: its sums, its chunks, and its live blocks.
fn tell_both(rt: &HostRuntime, pool: &Pool, arena: &Arena) {
    tell_pool(rt, pool);
    tell(rt, &(arena.kind(), arena.used(), arena.totals()));
    tell_account(rt, arena.account());
    for words in [2, 60, 100, 250, 300, 500] {
        tell_live(rt, arena, words);
    }
}

/// Prints the live blocks of so many words that start in the first granule, each with its first
/// word.
fn tell_live(rt: &HostRuntime, arena: &Arena, words: u64) {
    for start in 0..8192 {
        let block = Block { start, words };
        if let Ok(word) = arena.read(block, 0) {
            tell(rt, &(block, word));
        }
    }
}

/// How an arena is asked for a block.
#[derive(Clone, Copy)]
pub(crate) enum Asked {
    /// Where it needs no chunk.
    Place,
    /// Wherever it may be.
    Alloc,
}

/// An arena over a pool, and how it is asked for a block.
#[derive(Drop)]
pub(crate) struct Allocating {
    pool: Pool,
    arena: Arena,
    asked: Asked,
}

impl Model for Allocating {
    ghost use Rattle.ms_pool.specs.Ledger.{Ledger, Serves};
    ghost use Rattle.ms_arena.specs.Arena.{ArenaView, account_of};

    ghost Value = { Ledger × ArenaView };

    ghost view = { λ row. (row.pool, row.arena) };

    ghost invariant = { λ row. Serves row.pool (account_of row.arena) };
}

impl Allocating {
    /// Prepares an arena of two chunks, a retired one and the current one, with a live block and
    /// free ones in each.
    pub(crate) fn prepared(alloc: Global, asked: Asked) -> io::Result<Allocating> {
        let mut row = Allocating::new(alloc, asked)?;
        match row.fill() {
            Ok(()) => Ok(row),
            Err(_) => {
                drop(row);
                Err(unprepared())
            }
        }
    }

    /// Makes an arena with no chunk.
    fn new(alloc: Global, asked: Asked) -> io::Result<Allocating> {
        let (pool, account) = opened(alloc)?;
        let arena = Arena::new(alloc, account, Kind::Reflection);
        Ok(Allocating { pool, arena, asked })
    }

    /// Allocates blocks in each of two chunks, and frees all but one in each: so many that there is
    /// no room yet to put them in order.
    fn fill(&mut self) -> Result<(), Refusal> {
        let first = self.alloc(2)?;
        self.alloc(250)?;
        self.alloc(300)?;
        let last = self.alloc(100)?;
        let small = [self.alloc(2)?, self.alloc(2)?, self.alloc(2)?];
        for block in small {
            self.free(block)?;
        }
        self.free(first)?;
        self.free(last)
    }

    /// Allocates a block of so many words.
    fn alloc(&mut self, words: u64) -> Result<Block, Refusal> {
        self.arena.alloc(&mut self.pool, words)
    }

    /// Places a block of so many words where it needs no chunk.
    fn place(&mut self, words: u64) -> Result<Option<Block>, Refusal> {
        self.arena.place(words)
    }

    /// Frees a block.
    fn free(&mut self, block: Block) -> Result<(), Refusal> {
        self.arena.free(block)
    }
}

impl Row for Allocating {
    fn tell_state(&mut self, rt: &HostRuntime) -> io::Result<()> {
        tell_both(rt, &self.pool, &self.arena);
        Ok(())
    }

    fn call(&mut self, rt: &HostRuntime) -> Answer {
        match self.asked {
            Asked::Place => told(rt, self.place(60)),
            Asked::Alloc => told(rt, self.alloc(500)),
        }
    }
}

impl Places for Allocating {
    fn have(&mut self, words: u64) -> io::Result<Option<Block>> {
        match self.place(words) {
            Ok(found) => Ok(found),
            Err(_) => Err(unprepared()),
        }
    }
}

impl Probed for Allocating {
    fn probe(mut self, rt: &HostRuntime) -> io::Result<()> {
        let told = tell_places(rt, &mut self);
        drop(self);
        told
    }
}
