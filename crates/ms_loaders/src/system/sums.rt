//! The sums of one loader of a system, and what a full report tells beyond the totals.
ghost use Rattle.std.specs.Prelude.{◌≡◌, ◌↔◌, IfOk, IfSome, None};
ghost use Rattle.ms_base.specs.Transition.{LacksLoader};
ghost use Rattle.ms_answers.specs.Details.{details_in, details_of};
ghost use Rattle.ms_loaders.specs.LoaderSums.{AreLoaderSums};

use super::System;
use crate::collecting::gather_loaders;
use ms_answers::Details;
use ms_arena::ArenaTotals;
use ms_base::Kind;
use std::alloc::AllocError;

/// The sums of one loader. After HotSpot's VM.metaspace, with this project's numbers.
#[derive(Clone, Copy, Debug)]
pub struct LoaderTotals {
    /// What kind of loader it is.
    pub kind: Kind,
    /// The sums over its arena outside the class space.
    pub space: ArenaTotals,
    /// The sums over its arena in the class space.
    pub class_space: ArenaTotals,
}

impl System {
    /// Returns the sums of one loader, where one has the name. Takes no memory, visits each chunk
    /// of that loader once, at no block, and at no other loader.
    pub fn loader_totals(&self, name: u16) -> Option<LoaderTotals>
        ensures sums { IfSome result (AreLoaderSums self.now name) }
        ensures no_loader { (result ≡ None) ↔ LacksLoader self.now name }
    {
        let Some(loader) = self.loaders.get(name) else {
            return None;
        };
        let (space, class_space) = loader.totals();
        Some(LoaderTotals {
            kind: loader.kind(),
            space,
            class_space,
        })
    }

    /// Returns the sums of each loader, over each of its arenas, and the map of each reserved root.
    /// Takes memory for both lists, and fails only where that is refused; visits each loader, chunk
    /// and free part, and at no block.
    pub fn details(&self) -> Result<Details, AllocError>
        ensures { IfOk result (λ details. details_in details ≡ details_of self.now) }
    {
        let roots = self.maps()?;
        let loaders = gather_loaders(self.alloc, &self.loaders)?;
        Ok(Details { loaders, roots })
    }
}
