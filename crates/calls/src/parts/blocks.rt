//! The rows of free blocks: room is made for more; in the room that there is they are added and
//! removed.
use crate::probing::{Places, tell_places};
use crate::row::{Answer, Probed, Row, line, mark, tell, told, unprepared};
use ms_base::Block;
use ms_blocks::FreeBlocks;
use std::alloc::Global;
use std::io;

/// Prints the row.
pub(crate) fn tell_all(rt: &HostRuntime) -> io::Result<()> {
    let mut blocks = FreeBlocks::new(rt.alloc());
    if blocks.reserve(3).is_err() {
        return Err(unprepared());
    }
    mark(rt, "blocks");
    blocks.add(Block {
        start: 10,
        words: 4,
    });
    blocks.add(Block {
        start: 20,
        words: 9,
    });
    tell_blocks(rt, &blocks);
    for words in [5, 5, 2, 2] {
        tell_removed(rt, &mut blocks, words);
    }
    line(rt, "blocks reserve", &blocks.reserve(3));
    line(rt, "blocks reserve all", &blocks.reserve(usize::MAX));
    Ok(())
}

/// Removes a block and puts it back, and removes it again.
fn tell_removed(rt: &HostRuntime, blocks: &mut FreeBlocks, words: u64) {
    let taken = blocks.remove(words);
    line(rt, "blocks remove", &(words, taken));
    if let Some(block) = taken {
        blocks.add(block);
    }
    let _ = blocks.remove(words);
    tell_blocks(rt, blocks);
}

/// Prints how many blocks are kept, their words, and the room for more.
fn tell_blocks(rt: &HostRuntime, blocks: &FreeBlocks) {
    line(
        rt,
        "blocks kept",
        &(blocks.len(), blocks.total(), blocks.room()),
    );
}

/// Free blocks, for more of which room is to be made.
#[derive(Drop)]
pub(crate) struct Reserving {
    blocks: FreeBlocks,
}

impl Reserving {
    /// Prepares two free blocks and room for one more.
    pub(crate) fn prepared(alloc: Global) -> io::Result<Reserving> {
        let mut blocks = FreeBlocks::new(alloc);
        match blocks.reserve(3) {
            Ok(()) => {
                blocks.add(Block {
                    start: 10,
                    words: 4,
                });
                blocks.add(Block {
                    start: 20,
                    words: 6,
                });
                Ok(Reserving { blocks })
            }
            Err(_) => Err(unprepared()),
        }
    }
}

impl Row for Reserving {
    fn tell_state(&mut self, rt: &HostRuntime) -> io::Result<()> {
        let kept = (self.blocks.len(), self.blocks.total(), self.blocks.room());
        tell(rt, &kept);
        Ok(())
    }

    fn call(&mut self, rt: &HostRuntime) -> Answer {
        // More than a row has, so that what is kept goes into trees.
        told(rt, self.blocks.reserve(40))
    }
}

impl Probed for Reserving {
    fn probe(mut self, rt: &HostRuntime) -> io::Result<()> {
        tell_places(rt, &mut self)
    }
}

impl Places for Reserving {
    fn have(&mut self, words: u64) -> io::Result<Option<Block>> {
        Ok(self.blocks.remove(words))
    }
}
