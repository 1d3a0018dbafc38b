//! The places that loaders have for blocks in the chunks that they hold.
//!
//! A loader asks a source where its own places don't serve. Here the source has no chunk and lets
//! none grow, so a block is had exactly where it needs none. Stands on `probing`.
use crate::probing::{Places, tell_places};
use crate::row::{tell, unprepared};
use ms_base::{Block, Refusal, Space};
use ms_loaders::{Loader, Loaders};
use ms_pool::NoChunks;
use std::io;

/// How many loaders are asked: no row has more.
const MOST_LOADERS: u32 = 4;

/// The name before that of the first block: no row has one that is higher.
const LAST_NAME: u32 = 1000;

/// A loader and the space where it is asked for blocks, with the name of the last.
#[derive(Drop)]
struct Held {
    loader: Loader,
    space: Space,
    name: u32,
}

impl Places for Held {
    fn have(&mut self, words: u64) -> io::Result<Option<Block>> {
        self.name = self.name.wrapping_add(1);
        let mut source = NoChunks::one();
        match self
            .loader
            .allocate(&mut source, self.space, self.name, words)
        {
            Ok(block) => Ok(Some(block)),
            Err(Refusal::OutOfMemory) => Err(unprepared()),
            Err(_) => Ok(None),
        }
    }
}

/// Prints the places that the loaders have, loader by loader.
pub(crate) fn tell_all_places(rt: &HostRuntime, loaders: &mut Loaders) -> io::Result<()> {
    for _ in 0..MOST_LOADERS {
        if let Some((name, loader)) = loaders.pop_first() {
            tell(rt, &name);
            tell_held(rt, loader)?;
        }
    }
    Ok(())
}

/// Prints the places that a loader has.
fn tell_held(rt: &HostRuntime, loader: Loader) -> io::Result<()> {
    let mut held = Held {
        loader,
        space: Space::NonClass,
        name: LAST_NAME,
    };
    let told = tell_both(rt, &mut held);
    drop(held);
    told
}

/// Prints the places that a loader has, in each space.
fn tell_both(rt: &HostRuntime, held: &mut Held) -> io::Result<()> {
    tell_places(rt, held)?;
    held.space = Space::Class;
    tell_places(rt, held)
}
