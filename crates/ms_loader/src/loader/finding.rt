//! The name of a live block of a loader, by where it lies.
ghost use Rattle.std.specs.Prelude.{ℕ, IfSome, IfNone};
ghost use Rattle.ms_loader.specs.Finding.{HasRun};

use super::Loader;
use ms_base::Block;

impl Loader {
    /// Returns under which name a block is live here, if it is. Takes no memory, and visits each name
    /// until it is found. This project's choice.
    pub fn name_of(&self, block: Block) -> Option<u32>
        ensures live { IfSome result (λ name. HasRun self.now.state name block) }
        ensures none { IfNone result ((name : ℕ) → HasRun self.now.state name block → ⊥) }
    {
        self.names.name_of(block)
    }
}
