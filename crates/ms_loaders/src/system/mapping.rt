//! Maps of the roots: what a user looks at who asks where the committed memory lies.
ghost use Rattle.std.specs.Prelude.{◌≡◌, ◌++◌, IfOk, map};
ghost use Rattle.ms_base.specs.declared.kind.Space.TheVariants.{NonClass, Class};
ghost use Rattle.ms_base.specs.State.{pool_of};
ghost use Rattle.ms_pool.specs.Mapping.{map_in, maps_of};

use super::System;
use ms_pool::RootMap;
use std::alloc::AllocError;

impl System {
    /// Returns the map of each root of each reserved node, in order of address, those of the class
    /// space last. Takes memory for the list alone, and fails only where that is refused; visits
    /// each leaf of each root. After HotSpot's VM.metaspace vsmap; its cells are this project's
    /// choice.
    pub fn maps(&self) -> Result<Vec<RootMap>, AllocError>
        ensures { IfOk result (λ maps. map map_in maps.items
            ≡ maps_of (pool_of NonClass self.now) ++ maps_of (pool_of Class self.now)) }
    {
        self.pool.maps(self.alloc)
    }
}
