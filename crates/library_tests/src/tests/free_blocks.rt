//! What no clause says: that memory which is there is given and goes back, that more than can be is
//! refused, and that the best fit is the one meant, by blocks worked out by hand.
ghost use Rattle.std.specs.Prelude.{◌≡◌, []};

use super::same;
use linked_list_allocator::LocalHeap;
use ms_base::{Block, Refusal};
use ms_blocks::FreeBlocks;

fn block(start: u64, words: u64) -> Block
    ensures start { result.start ≡ start }
    ensures words { result.words ≡ words }
{
    Block { start, words }
}

/// What three blocks are answered: room for as many as can't be, the best fits, each with the words
/// that are left, and how many blocks are left with room for how many more.
type Answers = (
    Result<(), Refusal>,
    [(Option<Block>, u64); 3],
    (usize, usize),
);

/// Calls new free blocks on the heap.
fn called(heap: &LocalHeap) -> Option<Answers> {
    let mut blocks = FreeBlocks::new(heap);
    let told = answers(&mut blocks);
    drop(blocks);
    told
}

/// Calls free blocks: none where there is no room for three.
fn answers(blocks: &mut FreeBlocks<&LocalHeap>) -> Option<Answers>
    requires { blocks.old.kept ≡ [] }
{
    if blocks.reserve(3).is_err() {
        return None;
    }
    blocks.add(block(0, 10));
    blocks.add(block(20, 4));
    blocks.add(block(40, 4));
    let fits = [
        (blocks.remove(3), blocks.total()),
        (blocks.remove(5), blocks.total()),
        (blocks.remove(5), blocks.total()),
    ];
    let refused = blocks.reserve(usize::MAX);
    Some((refused, fits, (blocks.len(), blocks.room())))
}

#[test]
fn the_best_fit_comes_whole(rt: HostRuntime) {
    let heap = LocalHeap::new(rt.alloc(), 4096).expect(&rt, "memory is ample");
    let fits = [(Some(block(20, 4)), 14), (Some(block(0, 10)), 4), (None, 4)];
    let wanted = (Err(Refusal::OutOfMemory), fits, (1, 2));
    let told = (called(&heap), heap.used());
    drop(heap);
    same(&rt, &told, &(Some(wanted), 0));
}
