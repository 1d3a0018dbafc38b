//! Maps of the roots: what a user looks at who asks where the committed memory lies.
ghost use Rattle.std.specs.Prelude.{◌≡◌, ◌++◌, IfOk, map};
ghost use Rattle.ms_base.specs.declared.kind.Space.TheVariants.{NonClass, Class};
ghost use Rattle.ms_pool.specs.Ledger.{state_in};
ghost use Rattle.ms_pool.specs.Mapping.{map_in, maps_of};

use super::Pool;
use crate::mapping::RootMap;
use ms_base::Space;
use std::alloc::{AllocError, Global};

impl Pool {
    /// Returns the map of each root of each reserved node, in order of address, those of the class
    /// space last. Takes memory for the list alone, and fails only where that is refused; visits
    /// each leaf of each root. After HotSpot's VM.metaspace vsmap; its cells are this project's
    /// choice.
    pub fn maps(&self, alloc: Global) -> Result<Vec<RootMap>, AllocError>
        ensures { IfOk result (λ maps. map map_in maps.items
            ≡ maps_of (state_in NonClass self.now) ++ maps_of (state_in Class self.now)) }
    {
        let mut maps = Vec::new(alloc);
        self.lender.push_maps(Space::NonClass, &mut maps)?;
        self.lender.push_maps(Space::Class, &mut maps)?;
        Ok(maps)
    }
}
