//! What an arena knows of where its chunks come from, and a loader of where its accounts do: the
//! pool, or the pool behind a lock.
//!
//! A source serves accounts: it gave their numbers out, and its record of each such owner has the
//! account's chunks. Each call keeps all of them served, changes the chunks of its own accounts
//! alone and stands in a relation that the source states itself. `take` takes memory; a source
//! behind a lock waits in each call.
ghost use Rattle.std.specs.Prelude.{◌≡◌, ◌≢◌, ℕ, ◌+◌, ◌<◌, Bool, [], Result, IfOk, IfErr, OnErr, OnOk, MatchResult};
ghost use Rattle.std.specs.Prelude.{IsTrue};
ghost use Rattle.ms_base.specs.declared.kind.Space.{Space};
ghost use Rattle.ms_base.specs.declared.span.Span.{Span};
ghost use Rattle.ms_base.specs.declared.refusal.Refusal.{Refusal};
ghost use Rattle.ms_base.specs.State.{Limits};
ghost use Rattle.ms_pool.specs.Account.{AccountState, AreChunks};
ghost use Rattle.ms_pool.specs.Lending.{Adds, Grows};
ghost use Rattle.ms_pool.specs.Source.{CanTake, CanGrow, LeavesRest, ServesBoth, IsTakeRefusal, IsGrowRefusal, IsOpenRefusal};
ghost use Rattle.ms_pool.specs.Calls.{new_account};
ghost use Rattle.ms_pool.specs.declared.totals.PoolTotals.{PoolTotals};

use crate::account::Account;
use crate::totals::PoolTotals;
use ms_base::{Level, Refusal, Span};

/// What lends chunks to accounts. This project's choice; HotSpot's arenas know the chunk manager.
pub trait ChunkSource {
    /// The source serves the account.
    ghost serves: { Self → AccountState → Type 0 };
    /// How many open accounts of a space the source counts.
    ghost opened: { Self → Space → ℕ };
    /// The limits and the policy that it follows.
    ghost limits: { Self → Limits };
    /// What `take`, asked for an account, a wanted level, the most that serves and words, may
    /// answer and make of the source.
    ghost took: { Self → AccountState → ℕ → ℕ → ℕ → Result Span Refusal → Self → Type 0 };
    /// What `grow`, asked for an account, a start, words in all, and whether the chunk may be
    /// enlarged, may answer and make of the source.
    ghost grew: { Self → AccountState → ℕ → ℕ → Bool → Result Span Refusal → Self → Type 0 };
    /// What `close` may make of the source.
    ghost closed: { Self → AccountState → Self → Type 0 };
    /// What `totals` may answer and make of the source.
    ghost totalled: { Self → AccountState → PoolTotals → Self → Type 0 };

    /// Lends a chunk to the account, of a level from the wanted one up to the most that serves,
    /// with a front for so many words, 1 to the size of the latter; it comes last. Refused with
    /// `ReserveLimit`, with `CommitLimit` and with `OutOfMemory` alone, in that order; then the
    /// account is as it was. Takes memory.
    fn take(
        &mut self,
        account: &mut Account,
        wanted: Level,
        most: Level,
        words: u64,
    ) -> Result<Span, Refusal>
        requires { CanTake serves self.old account.old wanted most words }
        ensures served { serves self.new account.new }
        ensures rest { LeavesRest serves opened limits account.old.owner self.old self.new }
        ensures added { IfOk result
            (λ span. Adds (limits self.old).policy wanted most words account.old span account.new) }
        ensures unchanged { OnErr result (account.new ≡ account.old) }
        ensures refused { IfErr result IsTakeRefusal }
        ensures holds { OnOk result (AreChunks account.new.space account.new.chunks) }
        ensures took { took self.old account.old wanted most words result self.new };

    /// Makes the front of the account's chunk that starts there reach so many words, in its place:
    /// the front rises, or a leader whose buddy is one free part becomes its parent where it may be
    /// enlarged. Refused with `NoRoom` and the chunk's level, and with `CommitLimit` alone; then
    /// the account is as it was. Takes no memory.
    fn grow(
        &mut self,
        account: &mut Account,
        start: u64,
        total: u64,
        may_enlarge: bool,
    ) -> Result<Span, Refusal>
        requires { CanGrow serves self.old account.old start }
        ensures served { serves self.new account.new }
        ensures rest { LeavesRest serves opened limits account.old.owner self.old self.new }
        ensures grown { IfOk result
            (λ span. Grows (limits self.old).policy start total may_enlarge account.old span account.new) }
        ensures unchanged { OnErr result (account.new ≡ account.old) }
        ensures refused { IfErr result IsGrowRefusal }
        ensures holds { OnOk result (AreChunks account.new.space account.new.chunks) }
        ensures grew { grew self.old account.old start total may_enlarge result self.new };

    /// Takes all chunks of the account back in one step, and the account with them. Takes no
    /// memory.
    fn close(&mut self, account: Account)
        requires served { serves self.old account }
        requires counted { 0 < opened self.old account.space }
        ensures none { serves self.new (new_account account.owner account.space) }
        ensures others { (other : AccountState) → other.owner ≢ account.owner
            → serves self.old other → serves self.new other }
        ensures limits { limits self.new ≡ limits self.old }
        ensures counted { opened self.new account.space + 1 ≡ opened self.old account.space }
        ensures elsewhere { (space : Space) → space ≢ account.space
            → opened self.new space ≡ opened self.old space }
        ensures closed { closed self.old account self.new };

    /// Returns the sums over the account's space. Takes no memory.
    fn totals(&mut self, account: &Account) -> PoolTotals
        requires { serves self.old account.now }
        ensures others { (other : AccountState) → serves self.old other → serves self.new other }
        ensures counted { opened self.new ≡ opened self.old }
        ensures limits { limits self.new ≡ limits self.old }
        ensures totalled { totalled self.old account.now result self.new };
}

/// What also opens and closes the accounts of a loader, one in each space, and drops nodes: all
/// that a step of the machine asks of a pool. This project's choice.
pub trait AccountSource: ChunkSource {
    /// What `open_both` may answer and make of the source.
    ghost opened_both: { Self → Result (AccountState × AccountState) Refusal → Self → Type 0 };
    /// What `close_both` may make of the source.
    ghost closed_both: { Self → AccountState → AccountState → Self → Type 0 };
    /// How many nodes `purge` may drop, and what it may make of the source.
    ghost purged: { Self → ℕ → Self → Type 0 };

    /// Opens an account in each space, by one event; the first is not the class space's. Refused
    /// with `IdsUsedUp` where fewer than two owner numbers are left, and with `OutOfMemory` by a
    /// source that needs memory; then no account is open that wasn't.
    fn open_both(&mut self) -> Result<(Account, Account), Refusal>
        ensures served { IfOk result
            (λ accounts. ServesBoth Self.serves self.new accounts.0 accounts.1) }
        ensures empty { IfOk result (λ accounts. accounts.0.chunks ≡ []) }
        ensures class_empty { IfOk result (λ accounts. accounts.1.chunks ≡ []) }
        ensures refused { IfErr result IsOpenRefusal }
        ensures others { (other : AccountState) → Self.serves self.old other
            → Self.serves self.new other }
        ensures counted { (space : Space) → MatchResult result
            (λ accounts. Self.opened self.new space ≡ Self.opened self.old space + 1)
            (λ refusal. Self.opened self.new space ≡ Self.opened self.old space) }
        ensures limits { Self.limits self.new ≡ Self.limits self.old }
        ensures opened { opened_both self.old result self.new };

    /// Takes all chunks of the accounts of both spaces back, by one event, and the accounts with
    /// them; the first is not the class space's. Takes no memory.
    fn close_both(&mut self, account: Account, class_account: Account)
        requires both { ServesBoth Self.serves self.old account class_account }
        requires counted { (space : Space) → 0 < Self.opened self.old space }
        ensures others { (other : AccountState) → other.owner ≢ account.owner
            → other.owner ≢ class_account.owner
            → Self.serves self.old other → Self.serves self.new other }
        ensures counted { (space : Space)
            → Self.opened self.new space + 1 ≡ Self.opened self.old space }
        ensures limits { Self.limits self.new ≡ Self.limits self.old }
        ensures closed { closed_both self.old account class_account self.new };

    /// Drops the nodes that hold no chunk, their granules with them, and answers how many they
    /// were; those of the class space stay. Takes no memory.
    fn purge(&mut self) -> u32
        ensures served { (account : AccountState) → Self.serves self.old account
            → Self.serves self.new account }
        ensures counted { Self.opened self.new ≡ Self.opened self.old }
        ensures limits { Self.limits self.new ≡ Self.limits self.old }
        ensures purged { purged self.old result self.new };
}
