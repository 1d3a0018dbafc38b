//! To whom a word is lent: what a user asks who has an address and wants its owner.
ghost use Rattle.std.specs.Prelude.{◌≡◌};
ghost use Rattle.ms_pool.specs.Owners.{owner_at};

use super::Pool;
use crate::trees::holder;

impl Pool {
    /// Returns the number of the owner to whom the chunk is lent in which a word lies, in either
    /// space, if it lies in one: in use or not, committed or not. A word of a node that isn't
    /// reserved lies in none. Takes no memory, and goes down one path of one tree. This project's
    /// choice.
    pub fn owner_of(&self, word: u64) -> Option<u32>
        ensures { result ≡ owner_at self.now.loans word }
    {
        holder(&self.lender.trees, word)
    }
}
