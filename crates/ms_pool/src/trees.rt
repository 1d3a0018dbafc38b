//! The split trees of all roots that may be reserved, and an index of them (`index`).
//!
//! Kept true: the index tells of each root exactly the levels of which the root's tree has a free
//! leaf. A root that isn't reserved is whole, so it is told to have level 0, and whoever asks looks
//! whether its slot is reserved. A change of a tree tells the levels of its root anew, where they
//! are others. The room of trees and index is made once.
ghost use Rattle.std.specs.Prelude.{◌≡◌, ℕ, ◌-◌, ◌/◌, ◌%◌, ◌<◌, ◌≤◌, false, [], get_or, length, replicate};
ghost use Rattle.std.specs.Prelude.{IfOk, IfSome, IfNone, IsTrue, IsFalse, Some};
ghost use Rattle.std.specs.List.{All, find};
ghost use Rattle.ms_base.specs.Level.{root_words};
ghost use Rattle.ms_buddy.specs.Leaves.{AreLeaves, covers, free_of};
ghost use Rattle.ms_pool.specs.Growing.{with_greater_loan};
ghost use Rattle.ms_pool.specs.Keeping.{loans_from};
ghost use Rattle.ms_pool.specs.Ledger.{with_loan};
ghost use Rattle.ms_pool.specs.Owners.{owner_at};
ghost use Rattle.ms_pool.specs.Placing.{MayBeCarved, MayBeRaised};
ghost use Rattle.ms_pool.specs.Releasing.{TakesBack, is_lent_in, without_loan};
ghost use Rattle.ms_pool.specs.Trees.{LeaveNone, all_roots, has_free};

use crate::index::Index;
use ms_base::{Chunk, Level, ROOT_WORDS, Space, Span};
use ms_buddy::{Leaf, PartTable};
use std::alloc::{AllocError, Global};
use std::marker::Model;

/// A tree for each root that may be reserved, and the index. Contracts see the lent leaves of each.
#[derive(Drop)]
pub(crate) struct Trees {
    /// The tree of each root, by the root's number; 160 at most.
    trees: Vec<PartTable<Global>>,
    /// The levels of free leaves of each.
    index: Index,
}

impl Model for Trees {
    ghost use Rattle.ms_pool.specs.Trees.{IsIndex, TreesState};

    ghost Value = { TreesState };

    ghost view = { λ all. record { items = all.trees.items } };

    ghost invariant = { λ all. IsIndex all.index all.trees.items };
}

impl Trees {
    /// Makes so many trees, each of one free leaf.
    pub(crate) fn whole(alloc: Global, count: usize) -> Result<Trees, AllocError>
        requires { count ≤ all_roots }
        ensures { IfOk result (λ trees. trees.items ≡ replicate count []) }
    {
        let trees = whole_trees(alloc, count)?;
        let index = Index::whole();
        Ok(Trees { trees, index })
    }

    /// The tree of a root.
    pub(crate) fn tree(&self, root: usize) -> &PartTable<Global>
        requires { root < length self.now.items }
        ensures { result.now ≡ get_or self.now.items root [] }
    {
        &self.trees[root]
    }

    /// Returns the lowest root of a range whose tree has a free leaf of a level, without reading
    /// the trees.
    pub(crate) fn next_root(&self, level: Level, from: usize, end: usize) -> Option<usize>
        requires there { end ≤ length self.now.items }
        ensures from { IfSome result (λ root. from ≤ root) }
        ensures below { IfSome result (λ root. root < end) }
        ensures lowest { IfSome result
            (λ root. (k : ℕ) → from ≤ k → k < root → has_free self.now.items level k ≡ false) }
        ensures none { IfNone result
            ((k : ℕ) → from ≤ k → k < end → has_free self.now.items level k ≡ false) }
    {
        self.index.next_root(level, from, end)
    }

    /// Returns the levels of which any root of a space has a free leaf, as bits.
    pub(crate) fn free_levels(&self, space: Space) -> u16
        ensures { LeaveNone result space self.now.items }
    {
        self.index.levels(space)
    }
}

/// Returns the owner of the chunk in which a word lies, if it lies in one.
pub(crate) fn holder(trees: &Trees, word: u64) -> Option<u32>
    requires { All AreLeaves trees.now.items }
    ensures { result ≡ owner_at (loans_from 0 trees.now.items) word }
{
    let root = (word / ROOT_WORDS) as usize;
    if root >= trees.trees.len() {
        return None;
    }
    let (_, leaf) = trees.tree(root).leaf_at(word % ROOT_WORDS);
    match leaf {
        Leaf::Lent { owner, .. } => Some(owner),
        Leaf::Free => None,
    }
}

/// Lends the chunk's part in the tree of its root; `false` where memory is wanting.
pub(crate) fn carve(trees: &mut Trees, alloc: Global, owner: u32, chunk: &Chunk) -> bool
    requires leaves { All AreLeaves trees.old.items }
    requires may { MayBeCarved trees.old.items chunk.now }
    ensures lent { IsTrue result
        → loans_from 0 trees.new.items
        ≡ with_loan (record { owner = owner; chunk = chunk.now }) (loans_from 0 trees.old.items) }
    ensures leaves { All AreLeaves trees.new.items }
    ensures count { length trees.new.items ≡ length trees.old.items }
    ensures unchanged { IsFalse result → trees.new.items ≡ trees.old.items }
{
    let root = (chunk.start / ROOT_WORDS) as usize;
    let lent = carve_leaf(&mut trees.trees, alloc, owner, chunk);
    let levels = trees.trees[root].free_levels();
    trees.index.tell(root, levels);
    lent
}

/// Takes the chunk back in the tree of its root, and answers the free leaf that results.
pub(crate) fn put_back(trees: &mut Trees, chunk: &Chunk) -> Span
    requires leaves { All AreLeaves trees.old.items }
    requires lent { IsTrue (is_lent_in (loans_from 0 trees.old.items) chunk.now) }
    ensures { TakesBack trees.old.items chunk.now result trees.new.items }
{
    let root = (chunk.start / ROOT_WORDS) as usize;
    let part = put_back_leaf(&mut trees.trees, chunk);
    let levels = trees.trees[root].free_levels();
    trees.index.tell(root, levels);
    part
}

/// Makes the chunk's leaf that of the grown chunk, in the tree of its root.
pub(crate) fn raise(trees: &mut Trees, chunk: &Chunk, greater: &Chunk)
    requires leaves { All AreLeaves trees.old.items }
    requires may { MayBeRaised trees.old.items chunk.now greater.now }
    ensures loans { loans_from 0 trees.new.items
        ≡ with_greater_loan greater.now (loans_from 0 trees.old.items) }
    ensures leaves { All AreLeaves trees.new.items }
    ensures count { length trees.new.items ≡ length trees.old.items }
{
    let root = (chunk.start / ROOT_WORDS) as usize;
    raise_leaf(&mut trees.trees, chunk, greater);
    let levels = trees.trees[root].free_levels();
    trees.index.tell(root, levels);
}

/// Lends the chunk's part in the tree of its root; `false` where memory is wanting.
fn carve_leaf(trees: &mut Vec<PartTable<Global>>, alloc: Global, owner: u32, chunk: &Chunk) -> bool
    requires leaves { All AreLeaves trees.old.items }
    requires may { MayBeCarved trees.old.items chunk.now }
    ensures lent { IsTrue result
        → loans_from 0 trees.new.items
        ≡ with_loan (record { owner = owner; chunk = chunk.now }) (loans_from 0 trees.old.items) }
    ensures leaves { All AreLeaves trees.new.items }
    ensures count { length trees.new.items ≡ length trees.old.items }
    ensures unchanged { IsFalse result → trees.new.items ≡ trees.old.items }
    ensures others { (root : ℕ) → (root ≡ chunk.now.start / root_words → ⊥)
        → get_or trees.new.items root [] ≡ get_or trees.old.items root [] }
{
    let root = (chunk.start / ROOT_WORDS) as usize;
    let at = chunk.start % ROOT_WORDS;
    let tree = &mut trees[root];
    tree.carve(alloc, chunk.level, at, owner, chunk.front)
        .is_ok()
}

/// Takes the chunk back in the tree of its root, and answers the free leaf that results.
fn put_back_leaf(trees: &mut Vec<PartTable<Global>>, chunk: &Chunk) -> Span
    requires leaves { All AreLeaves trees.old.items }
    requires lent { IsTrue (is_lent_in (loans_from 0 trees.old.items) chunk.now) }
    ensures loans { loans_from 0 trees.new.items ≡ without_loan chunk.now (loans_from 0 trees.old.items) }
    ensures leaves { All AreLeaves trees.new.items }
    ensures count { length trees.new.items ≡ length trees.old.items }
    ensures there { chunk.now.start / root_words < length trees.old.items }
    ensures free { find (covers (chunk.now.start % root_words))
        (free_of (get_or trees.new.items (chunk.now.start / root_words) []))
        ≡ Some result }
    ensures others { (root : ℕ) → (root ≡ chunk.now.start / root_words → ⊥)
        → get_or trees.new.items root [] ≡ get_or trees.old.items root [] }
{
    let tree = &mut trees[(chunk.start / ROOT_WORDS) as usize];
    tree.release(Span {
        start: chunk.start % ROOT_WORDS,
        level: chunk.level,
    })
}

/// Makes the chunk's leaf that of the grown chunk, in the tree of its root.
fn raise_leaf(trees: &mut Vec<PartTable<Global>>, chunk: &Chunk, greater: &Chunk)
    requires leaves { All AreLeaves trees.old.items }
    requires may { MayBeRaised trees.old.items chunk.now greater.now }
    ensures loans { loans_from 0 trees.new.items
        ≡ with_greater_loan greater.now (loans_from 0 trees.old.items) }
    ensures leaves { All AreLeaves trees.new.items }
    ensures count { length trees.new.items ≡ length trees.old.items }
    ensures others { (root : ℕ) → (root ≡ chunk.now.start / root_words → ⊥)
        → get_or trees.new.items root [] ≡ get_or trees.old.items root [] }
{
    let root = (chunk.start / ROOT_WORDS) as usize;
    let level = chunk.level;
    let span = Span {
        start: chunk.start % ROOT_WORDS,
        level,
    };
    let tree = &mut trees[root];
    if greater.level == level {
        tree.set_front(span, greater.front);
    } else {
        match tree.enlarge(span, greater.front) {
            Ok(_) => {}
            Err(_) => unreachable!(),
        }
    }
}

/// Makes so many trees, each of one free leaf.
fn whole_trees(alloc: Global, count: usize) -> Result<Vec<PartTable<Global>>, AllocError>
    ensures { IfOk result (λ trees. trees.items ≡ replicate count []) }
{
    let mut trees = Vec::with_capacity(alloc, count)?;
    for _ in 0..count {
        trees.push_reserved(PartTable::new());
    }
    Ok(trees)
}
