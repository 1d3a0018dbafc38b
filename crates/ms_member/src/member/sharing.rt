//! Pools that are shared, and seats that are split off: a member more over the same pool.
//!
//! A seat that was taken out of those to spare goes back where memory for its member is wanting.
ghost use Rattle.std.specs.Prelude.{◌≡◌, ◌≤◌, ◌<◌, ◌++◌, ◌∷◌, [], IfSome, IfNone, IfOk, OnErr};
ghost use Rattle.std.specs.Prelude.{vec_len, vec_capacity};
ghost use Rattle.ms_base.specs.State.{limits_of};
ghost use Rattle.ms_member.specs.Member.{IsFirst, IsFirstOf, AreSeatsOf, Splits, LacksSpare};

use super::Member;
use ms_base::Settings;
use ms_pool::Pool;
use ms_shared::{PoolSeat, SharedPool};
use std::alloc::{AllocError, Global};
use std::sync::Arc;

impl Member {
    /// Makes a pool of so many seats and its first member, which has the other seats to spare; or
    /// none where memory is wanting. Takes memory.
    pub fn share(alloc: Global, settings: Settings, seats: usize) -> Option<Member>
        requires some { 1 ≤ seats }
        requires few { seats ≤ 65536 }
        ensures { IfSome result (IsFirst (limits_of settings) seats) }
    {
        let Ok(pool) = Pool::new(alloc, settings) else {
            return None;
        };
        match SharedPool::new(alloc, pool, seats) {
            Ok((shared, spare)) => first(alloc, shared, spare),
            Err(refused) => {
                drop(refused);
                None
            }
        }
    }

    /// Makes one of the seats to spare a member of its own, or none where there is none. Where
    /// memory is wanting nothing changes. Takes memory.
    pub fn split(&mut self, alloc: Global) -> Result<Option<Box<Member, Global>>, AllocError>
        ensures split { IfOk result
            (λ made. IfSome made (λ other. Splits self.old self.new other.value)) }
        ensures none { IfOk result (λ made. IfNone made (LacksSpare self.old self.new)) }
        ensures unchanged { OnErr result (self.new ≡ self.old) }
    {
        let shared = Arc::try_clone(&self.shared)?;
        let Some(seat) = self.spare.pop() else {
            return Ok(None);
        };
        match Box::new(alloc, Member::new(shared, seat, Vec::new(alloc))) {
            Ok(member) => Ok(Some(member)),
            Err(refused) => {
                give_back(&mut self.spare, refused.value);
                Err(AllocError)
            }
        }
    }
}

/// Makes the first member of a pool.
fn first(alloc: Global, shared: SharedPool, mut spare: Vec<PoolSeat>) -> Option<Member>
    requires { AreSeatsOf shared spare.items }
    ensures { IfSome result (λ now. IsFirstOf spare.items now) }
{
    let Some(seat) = spare.pop() else {
        return None;
    };
    match Arc::new(alloc, shared) {
        Ok(shared) => Some(Member::new(shared, seat, spare)),
        Err(refused) => {
            drop(refused);
            None
        }
    }
}

/// Puts the seat of a member for which memory was wanting back to those to spare.
fn give_back(spare: &mut Vec<PoolSeat>, member: Member)
    requires { vec_len spare.old < vec_capacity spare.old }
    ensures { IfSome member.seat (λ seat. spare.new.items ≡ spare.old.items ++ seat ∷ []) }
{
    if let Some(seat) = member.into_seat() {
        spare.push_reserved(seat);
    }
}
