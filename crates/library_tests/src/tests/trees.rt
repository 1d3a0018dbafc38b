//! What no clause says: that a carve succeeds where memory is ample, what each body of a root chunk's
//! area keeps of its memory and gives back, leaves worked by hand, and that both bodies answer alike
//! through 100,000 calls.
ghost use Rattle.std.specs.Prelude.{◌≡◌, ◌%◌, ◌<◌, ◌≤◌};
ghost use Rattle.ms_base.specs.Level.{size_of};
ghost use Rattle.ms_base.specs.declared.sizes.TheConstants.{ROOT_WORDS};

use super::same;
use linked_list_allocator::LocalHeap;
use ms_base::{Level, ROOT_WORDS, Refusal, Span};
use ms_buddy::{Leaf, PartTable, RootChunkArea, SplitTree};
use std::alloc::{Allocator, Global};

/// Releases the leaf that covers the offset, where it is lent.
fn release_at<A: Allocator, T: RootChunkArea<A>>(tree: &mut T, offset: u64) -> Option<Span>
    requires { offset < ROOT_WORDS }
{
    match tree.leaf_at(offset) {
        (_, Leaf::Free) => None,
        (span, Leaf::Lent { .. }) => Some(tree.release(span)),
    }
}

/// Enlarges the leaf that covers the offset, where it is lent and the front is in range.
fn enlarge_at<A: Allocator, T: RootChunkArea<A>>(
    tree: &mut T,
    offset: u64,
    front: u64,
) -> Option<Result<Span, Refusal>>
    requires { offset < ROOT_WORDS }
{
    match tree.leaf_at(offset) {
        (_, Leaf::Free) => None,
        (span, Leaf::Lent { .. }) => {
            if front == 0 || front > 2 * span.level.words() {
                return None;
            }
            Some(tree.enlarge(span, front))
        }
    }
}

fn span(start: u64, level: u8) -> Span
    requires { level ≤ 12 }
{
    Span {
        start,
        level: Level::new(level),
    }
}

/// The free leaves of a tree, the first ten and whether there is another.
fn free_leaves<A: Allocator, T: RootChunkArea<A>>(tree: &T) -> ([Option<Span>; 10], bool) {
    let mut leaves = tree.free_leaves().into_iter();
    let mut free = [None; 10];
    for index in 0..10 {
        free[index] = leaves.next();
    }
    (free, leaves.next().is_some())
}

/// What the carves of a tree are answered, its free leaves after two of them, what two chunks are
/// answered that are enlarged, and those that are released.
type Answers = (
    [Result<(), Refusal>; 3],
    ([Option<Span>; 10], bool),
    [Option<Result<Span, Refusal>>; 2],
    [Option<Span>; 2],
);

/// Calls a new tree on the heap.
fn called(heap: &LocalHeap) -> Answers {
    let mut tree: PartTable<&LocalHeap> = PartTable::new();
    call_all(&mut tree, heap, heap, heap)
}

/// Makes the calls on a tree, with an allocator for each that may take memory.
fn call_all<A: Allocator, T: RootChunkArea<A>>(tree: &mut T, one: A, two: A, three: A) -> Answers {
    let first = tree.carve(one, Level::new(10), 0, 1, 512);
    let second = tree.carve(two, Level::new(11), 768, 2, 256);
    let free = free_leaves(tree);
    let third = tree.carve(three, Level::new(9), 0, 3, 1024);
    let split = enlarge_at(tree, 0, 600);
    let follower = enlarge_at(tree, 768, 512);
    let released = [release_at(tree, 0), release_at(tree, 768)];
    ([first, second, third], free, [split, follower], released)
}

fn no_room(level: u8) -> Refusal
    requires { level ≤ 12 }
{
    Refusal::NoRoom {
        level: Level::new(level),
    }
}

/// What these calls are answered. The tree is then whole.
fn wanted_answers() -> Answers {
    let free = [
        Some(span(512, 11)),
        Some(span(1024, 9)),
        Some(span(2048, 8)),
        Some(span(4096, 7)),
        Some(span(8192, 6)),
        Some(span(16384, 5)),
        Some(span(32768, 4)),
        Some(span(65536, 3)),
        Some(span(131072, 2)),
        Some(span(262144, 1)),
    ];
    (
        [Ok(()), Ok(()), Err(no_room(9))],
        (free, false),
        [Some(Err(no_room(10))), Some(Err(no_room(11)))],
        [Some(span(0, 10)), Some(span(0, 0))],
    )
}

#[test]
fn a_tree_lends_and_merges_and_gives_its_memory_back(rt: HostRuntime) {
    let heap = LocalHeap::new(rt.alloc(), 131072).expect(&rt, "memory is ample");
    let wanted = wanted_answers();
    let told = (called(&heap), heap.used());
    drop(heap);
    same(&rt, &told, &(wanted, 0));
}

/// Calls a new tree of each body on the heap: what each is answered, and whether it is whole.
fn both_called(heap: &LocalHeap) -> [(Answers, bool); 2] {
    let mut tree: SplitTree<&LocalHeap> = SplitTree::new();
    let of_tree = call_all(&mut tree, heap, heap, heap);
    let mut table: PartTable<&LocalHeap> = PartTable::new();
    let of_table = call_all(&mut table, heap, heap, heap);
    [(of_tree, tree.is_whole()), (of_table, table.is_whole())]
}

#[test]
fn both_bodies_lend_and_merge_on_a_small_heap_of_their_own(rt: HostRuntime) {
    let heap = LocalHeap::new(rt.alloc(), 65536).expect(&rt, "memory is ample");
    let wanted = [(wanted_answers(), true), (wanted_answers(), true)];
    let told = (both_called(&heap), heap.used());
    drop(heap);
    same(&rt, &told, &(wanted, 0));
}

/// The same on the global allocator.
fn both_called_globally(alloc: Global) -> [(Answers, bool); 2] {
    let mut tree: SplitTree<Global> = SplitTree::new();
    let of_tree = call_all(&mut tree, alloc, alloc, alloc);
    let mut table: PartTable<Global> = PartTable::new();
    let of_table = call_all(&mut table, alloc, alloc, alloc);
    [(of_tree, tree.is_whole()), (of_table, table.is_whole())]
}

#[test]
fn both_bodies_lend_and_merge_on_the_global_allocator(rt: HostRuntime) {
    let wanted = [(wanted_answers(), true), (wanted_answers(), true)];
    let told = both_called_globally(rt.alloc());
    same(&rt, &told, &wanted);
}

/// Has a new tree lend a part on a heap that is too small: what it is answered, whether the tree is
/// whole, and what it keeps of the heap.
fn called_without_room(heap: &LocalHeap) -> (Result<(), Refusal>, bool, usize) {
    let mut tree = PartTable::new();
    let refused = tree.carve(heap, Level::new(12), 0, 1, 128);
    (refused, tree.is_whole(), heap.used())
}

/// The same of a tree in boxes: the first of its boxes find room, and are given back.
fn boxes_called_without_room(heap: &LocalHeap) -> (Result<(), Refusal>, bool, usize) {
    let mut tree = SplitTree::new();
    let refused = tree.carve(heap, Level::new(12), 0, 1, 128);
    (refused, tree.is_whole(), heap.used())
}

#[test]
fn boxes_that_were_made_go_back_where_the_next_is_refused(rt: HostRuntime) {
    let heap = LocalHeap::new(rt.alloc(), 128).expect(&rt, "memory is ample");
    let wanted = (Err(Refusal::OutOfMemory), true, 0);
    let told = boxes_called_without_room(&heap);
    drop(heap);
    same(&rt, &told, &wanted);
}

#[test]
fn a_carve_that_is_refused_gives_back_what_it_took(rt: HostRuntime) {
    let heap = LocalHeap::new(rt.alloc(), 128).expect(&rt, "memory is ample");
    let wanted = (Err(Refusal::OutOfMemory), true, 0);
    let told = called_without_room(&heap);
    drop(heap);
    same(&rt, &told, &wanted);
}

/// Lends all parts of the smallest level, and counts them.
fn carve_all<'a>(tree: &mut PartTable<&'a LocalHeap>, heap: &'a LocalHeap) -> u32 {
    let mut lent: u32 = 0;
    for part in 0..4096 {
        if tree.carve(heap, Level::new(12), 128 * part, 1, 128).is_ok() {
            lent = lent.saturating_add(1);
        }
    }
    lent
}

/// Releases them, and counts them.
fn release_all<A: Allocator, T: RootChunkArea<A>>(tree: &mut T) -> u32 {
    let mut released: u32 = 0;
    for part in 0..4096 {
        if release_at(tree, 128 * part).is_some() {
            released = released.saturating_add(1);
        }
    }
    released
}

/// Lends a part again after all were lent and released: the numbers of those, what the tree kept of
/// the heap, what the part is answered, and what the tree keeps then.
fn called_again(heap: &LocalHeap) -> ([u32; 2], usize, Result<(), Refusal>, usize) {
    let mut tree = PartTable::new();
    let counts = [carve_all(&mut tree, heap), release_all(&mut tree)];
    let kept = heap.used();
    let again = tree.carve(heap, Level::new(12), 524160, 1, 128);
    (counts, kept, again, heap.used())
}

/// The table of entries, 4095 of 8 bytes, stays for the next carve; the heap's pieces are of 16.
#[test]
fn the_table_serves_the_next_carve(rt: HostRuntime) {
    let heap = LocalHeap::new(rt.alloc(), 1048576).expect(&rt, "memory is ample");
    let wanted = ([4096, 4096], 32768, Ok(()), 32768);
    let told = (called_again(&heap), heap.used());
    drop(heap);
    same(&rt, &told, &(wanted, 0));
}

/// Numbers from a fixed seed, each from the one before (Marsaglia's xorshift).
#[derive(Clone, Copy)]
struct Drawn {
    last: u64,
}

impl Drawn {
    /// Draws the next number.
    fn next(&mut self) -> u64 {
        let mut drawn = self.last;
        drawn ^= drawn << 13;
        drawn ^= drawn >> 7;
        drawn ^= drawn << 17;
        self.last = drawn;
        drawn
    }

    /// Draws a number below another.
    fn below(&mut self, end: u64) -> u64
        requires { 0 < end }
        ensures { result < end }
    {
        self.next() % end
    }
}

/// Answers the first word of the part of a level that holds an offset.
fn aligned(offset: u64, level: Level) -> u64
    requires { offset < ROOT_WORDS }
    ensures aligned { result % size_of level ≡ 0 }
    ensures in_root { result < ROOT_WORDS }
{
    let words = level.words();
    offset / words * words
}

/// A tree of each body, to which the same calls are made.
struct Twins {
    tree: SplitTree<Global>,
    table: PartTable<Global>,
}

/// How often each call of the four was accepted; none until then.
type Accepted = [u32; 4];

impl Twins {
    /// Lends a part that is drawn, in both: whether both answer alike, and whether they lend it.
    fn carve(&mut self, alloc: Global, drawn: &mut Drawn) -> (bool, bool) {
        let level = drawn.below(13).max(drawn.below(13));
        let level = Level::new(level as u8);
        let at = aligned(drawn.below(ROOT_WORDS), level);
        let owner = drawn.below(9) as u32;
        let front = drawn.below(level.words()) + 1;
        let first = self.tree.carve(alloc, level, at, owner, front);
        let second = self.table.carve(alloc, level, at, owner, front);
        (first == second, first.is_ok())
    }

    /// Releases the leaf at an offset that is drawn, where it is lent.
    fn release(&mut self, drawn: &mut Drawn) -> (bool, bool) {
        let offset = drawn.below(ROOT_WORDS);
        let first = release_at(&mut self.tree, offset);
        let second = release_at(&mut self.table, offset);
        (first == second, first.is_some())
    }

    /// Enlarges the leaf at an offset that is drawn, where it is lent.
    fn enlarge(&mut self, drawn: &mut Drawn) -> (bool, bool) {
        let offset = drawn.below(ROOT_WORDS);
        let front = drawn.below(256) + 1;
        let first = enlarge_at(&mut self.tree, offset, front);
        let second = enlarge_at(&mut self.table, offset, front);
        (first == second, matches!(first, Some(Ok(_))))
    }

    /// Changes the front of the leaf at an offset that is drawn, where it is lent.
    fn set_front(&mut self, drawn: &mut Drawn) -> (bool, bool) {
        let offset = drawn.below(ROOT_WORDS);
        let part = drawn.next();
        let first = set_front_at(&mut self.tree, offset, part);
        let second = set_front_at(&mut self.table, offset, part);
        (first == second, first.is_some())
    }

    /// Whether both have the same free leaves, in the same order, and are whole alike.
    fn are_free_alike(&self) -> bool {
        let mut others = self.table.free_leaves();
        for part in self.tree.free_leaves() {
            if others.next() != Some(part) {
                return false;
            }
        }
        others.next().is_none() && self.tree.is_whole() == self.table.is_whole()
    }

    /// Whether both have the same leaf at each index of the smallest size.
    fn are_alike(&self) -> bool {
        for index in 0..4096 {
            if self.tree.leaf_at(128 * index) != self.table.leaf_at(128 * index) {
                return false;
            }
        }
        true
    }

    /// Makes a call that is drawn, and counts it where it is accepted: whether both answer alike,
    /// and have the same free leaves after it.
    fn call(&mut self, alloc: Global, drawn: &mut Drawn, accepted: &mut Accepted) -> bool {
        let (kind, (alike, served)) = match drawn.below(8) {
            0..=3 => (0, self.carve(alloc, drawn)),
            4 | 5 => (1, self.release(drawn)),
            6 => (2, self.enlarge(drawn)),
            _ => (3, self.set_front(drawn)),
        };
        if served {
            accepted[kind] = accepted[kind].saturating_add(1);
        }
        alike && self.are_free_alike()
    }
}

/// Changes the front of the leaf that covers the offset, where it is lent, to one that is drawn.
fn set_front_at<A: Allocator, T: RootChunkArea<A>>(
    tree: &mut T,
    offset: u64,
    part: u64,
) -> Option<u64>
    requires { offset < ROOT_WORDS }
{
    match tree.leaf_at(offset) {
        (_, Leaf::Free) => None,
        (span, Leaf::Lent { .. }) => {
            let front = part % span.level.words() + 1;
            tree.set_front(span, front);
            Some(front)
        }
    }
}

/// Makes 100,000 calls on a tree of each body: the number of the first call after which they
/// differ, and whether each kind of call was accepted a hundred times.
fn first_difference(alloc: Global) -> (Option<u32>, bool) {
    let mut twins = Twins {
        tree: SplitTree::new(),
        table: PartTable::new(),
    };
    let mut drawn = Drawn {
        last: 0x9e37_79b9_7f4a_7c15,
    };
    let mut accepted = [0; 4];
    let mut differs = None;
    for number in 0..100_000 {
        let mut alike = twins.call(alloc, &mut drawn, &mut accepted);
        if number % 64 == 0 {
            alike = alike && twins.are_alike();
        }
        if !alike {
            differs = Some(number);
            break;
        }
    }
    let Twins { tree, table } = twins;
    drop(tree);
    drop(table);
    (differs, accepted.iter().all(|count| *count >= 100))
}

#[test]
fn both_bodies_answer_a_hundred_thousand_calls_alike(rt: HostRuntime) {
    let told = first_difference(rt.alloc());
    same(&rt, &told, &(None, true));
}
