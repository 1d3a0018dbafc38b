//! The row of maps of roots: a pool tells them.
use crate::pools::tell_pool;
use crate::row::{Answer, Row};
use crate::systems::filled::{FREED, filled};
use crate::systems::maps_told;
use ms_pool::Pool;
use std::alloc::Global;
use std::io;

/// A pool of whose roots maps are to be told.
#[derive(Drop)]
pub(crate) struct Mapping {
    alloc: Global,
    pool: Pool,
}

impl Mapping {
    /// Prepares the pool of a system with loaders and blocks.
    pub(crate) fn prepared(alloc: Global) -> io::Result<Mapping> {
        let (pool, loaders) = filled(alloc, &FREED)?.into_parts();
        drop(loaders);
        Ok(Mapping { alloc, pool })
    }
}

impl Row for Mapping {
    fn tell_state(&mut self, rt: &HostRuntime) -> io::Result<()> {
        tell_pool(rt, &self.pool);
        Ok(())
    }

    fn call(&mut self, rt: &HostRuntime) -> Answer {
        maps_told(rt, self.pool.maps(self.alloc))
    }
}
