//! A source without chunks: over it a block is had exactly where an arena, or a loader, has room for
//! it in the chunks that it holds. So a caller that doesn't have the pool gets such blocks at once.
ghost use Rattle.std.specs.Prelude.{◌≡◌};

use crate::account::Account;
use crate::source::ChunkSource;
use crate::totals::PoolTotals;
use ms_base::{Level, Refusal, Space, Span};

/// A source that lends no chunk and lets none grow, and counts the accounts that are open in each
/// space. It takes no memory. This project's choice.
#[derive(Drop)]
pub struct NoChunks {
    /// How many accounts of the non-class space are open.
    pub opened: u64,
    /// How many accounts of the class space are open.
    pub class_opened: u64,
}

impl NoChunks {
    /// Makes a source that counts one open account in each space.
    pub fn one() -> NoChunks
        ensures { result ≡ record { opened = 1; class_opened = 1 } }
    {
        NoChunks {
            opened: 1,
            class_opened: 1,
        }
    }
}

impl ChunkSource for NoChunks {
    ghost use Rattle.ms_base.specs.Spaces.{by_space};
    ghost use Rattle.ms_base.specs.declared.policy.Policy.TheVariants.{Balanced};
    ghost use Rattle.ms_pool.specs.NoChunks.{takes_none, grows_none};

    ghost serves = { λ _ _. Unit {0} };

    ghost opened = { λ source space. by_space space source.opened source.class_opened };

    ghost limits = { λ _. record { nodes = 0; granules = 0; policy = Balanced; class_nodes = 0 } };

    ghost took = { takes_none };

    ghost grew = { grows_none };

    ghost closed = { λ _ _ _. Unit {0} };

    ghost totalled = { λ _ _ _ _. Unit {0} };

    fn take(
        &mut self,
        _account: &mut Account,
        _wanted: Level,
        _most: Level,
        _words: u64,
    ) -> Result<Span, Refusal> {
        Err(Refusal::ReserveLimit { nodes: 0, limit: 0 })
    }

    fn grow(
        &mut self,
        _account: &mut Account,
        _start: u64,
        _total: u64,
        _may_enlarge: bool,
    ) -> Result<Span, Refusal> {
        Err(Refusal::CommitLimit {
            committed: 0,
            limit: 0,
            need: 1,
        })
    }

    fn close(&mut self, account: Account) {
        match account.space() {
            Space::NonClass => self.opened -= 1,
            Space::Class => self.class_opened -= 1,
        }
    }

    fn totals(&mut self, _account: &Account) -> PoolTotals {
        PoolTotals {
            nodes: 0,
            granules: 0,
            lent: [0; 13],
            free: [0; 13],
            capacity: 0,
            fronts: 0,
            accounts: 0,
        }
    }
}
