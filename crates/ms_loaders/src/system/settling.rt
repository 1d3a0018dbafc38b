//! Settling: a pool and the loaders over it become a system, and a system its parts again.
//!
//!     Pool ───┐               ┌─── Pool
//!             ├── System ─────┤            `settle` to the right, then `into_parts`
//!     Loaders ┘               └─── Loaders
//!
//! Workers have loaders of their own over a pool that they share. When they have come together, and
//! no account is left that isn't a given loader's, the parts are a good machine. Nothing here takes
//! memory or waits. This project's choice.
ghost use Rattle.std.specs.Prelude.{◌≡◌, ◌*◌, ◌≤◌, ◌↔◌, IfOk, IfErr, IsOk};
ghost use Rattle.ms_base.specs.declared.refusal.Refusal.TheVariants.{Unsettled};
ghost use Rattle.ms_base.specs.Good.{IsGood};
ghost use Rattle.ms_base.specs.Names.{AreNamed};
ghost use Rattle.ms_loaders.specs.System.{machine_of, AreTogether};
ghost use Rattle.ms_loaders.specs.Settles.{MaySettle, open_accounts, accounts_in};

use super::System;
use ms_base::Refusal;
use ms_loader_map::Loaders;
use ms_pool::Pool;
use std::alloc::Global;

impl System {
    /// Puts a pool and the loaders over it together, exactly where the pool has no more accounts
    /// open than the loaders have, two of each. Refused with `Unsettled` and both numbers, counted
    /// in accounts; then all parts are handed back as they were. Takes no memory, and visits each
    /// loader once. This project's choice.
    pub fn settle(
        alloc: Global,
        pool: Pool,
        loaders: Loaders,
    ) -> Result<System, (Refusal, Pool, Loaders)>
        requires { MaySettle pool loaders }
        ensures settled { IfOk result (λ system. system ≡ machine_of pool loaders) }
        ensures good { IfOk result IsGood }
        ensures exact { IsOk result ↔ (open_accounts pool ≤ accounts_in loaders) }
        ensures unsettled { IfErr result
            (λ back. back.0 ≡ Unsettled (open_accounts pool) (accounts_in loaders)) }
        ensures pool { IfErr result (λ back. back.1 ≡ pool) }
        ensures loaders { IfErr result (λ back. back.2 ≡ loaders) }
    {
        let opened = pool.accounts();
        let gathered = 2 * loaders.len() as u64;
        if opened > gathered {
            return Err((Refusal::Unsettled { opened, gathered }, pool, loaders));
        }
        // Whether each loader is sound is known once all have been looked at.
        loaders.learn();
        Ok(System::from_parts(alloc, pool, loaders))
    }

    /// Puts a pool and the loaders over it together that are known to belong together, as those are
    /// that `into_parts` gives: it looks at none. Takes no memory. This project's choice.
    pub fn from_parts(alloc: Global, pool: Pool, loaders: Loaders) -> System
        requires { AreTogether pool loaders }
        ensures machine { result ≡ machine_of pool loaders }
        ensures good { IsGood result }
    {
        let policy = pool.policy();
        System {
            alloc,
            policy,
            pool,
            loaders,
        }
    }

    /// Takes a system apart: the pool serves the loaders' accounts, and no other account is open.
    /// Takes no memory. This project's choice.
    pub fn into_parts(self) -> (Pool, Loaders)
        ensures machine { machine_of result.0 result.1 ≡ self }
        ensures together { AreTogether result.0 result.1 }
        ensures fits { MaySettle result.0 result.1 }
        ensures all { open_accounts result.0 ≡ accounts_in result.1 }
        ensures names { AreNamed result.1 }
    {
        let System {
            alloc: _,
            policy: _,
            pool,
            loaders,
        } = self;
        (pool, loaders)
    }
}
