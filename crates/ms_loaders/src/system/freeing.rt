//! A block that is freed by where it lies: what a user asks who kept no name of it.
ghost use Rattle.std.specs.Prelude.{◌≡◌, OnOk, IfErr, OnErr};
ghost use Rattle.ms_loaders.specs.Freeing.{FreesThere, LacksThere};

use super::System;
use ms_base::{Block, Refusal};

impl System {
    /// Frees the live block of a loader that lies there, as `free` does by its name, which may then
    /// be used anew. Refused with `NoLoader`, and with `NotLive` exactly where the loader has no
    /// live block that starts there with so many words; then nothing changes. Takes no memory, and
    /// visits each of the loader's names until it is found. This project's choice.
    pub fn free_block(&mut self, name: u16, block: Block) -> Result<(), Refusal>
        ensures freed { OnOk result (FreesThere self.old name block self.new) }
        ensures refused { IfErr result (LacksThere self.old name block) }
        ensures unchanged { OnErr result (self.new ≡ self.old) }
    {
        let Some(loader) = self.loaders.get(name) else {
            return Err(Refusal::NoLoader);
        };
        let Some(number) = loader.name_of(block) else {
            return Err(Refusal::NotLive);
        };
        self.free(name, number)
    }
}
