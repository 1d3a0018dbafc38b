//! A search tree of blocks by rank, which no operation makes or frees memory for.
//!
//!                 fork             everything to the left ranks before the fork's block, and
//!                /    \            everything to the right behind it
//!            left      right
//!
//! Kept level, after Adelson-Velsky and Landis: the sides of a fork differ in height by one at
//! most, so that a tree of n blocks is at most about 1.44 times the logarithm of n in base 2 high,
//! whatever blocks come and go. Nothing that is proved rests on the heights.
//! Forks come from outside and go back whole. Each operation says which list of blocks the tree
//! holds then, from left to right.
ghost use Rattle.std.specs.Prelude.{◌≡◌, ◌≢◌, ◌∷◌, ◌++◌, [], IsTrue, IsFalse, IfNone};
ghost use Rattle.std.specs.Option.{option_map};
ghost use Rattle.ms_blocks.specs.Rank.{IsRanked, ranks_before, with_ranked, first_fit, without_fit};
ghost use Rattle.ms_blocks.specs.Tree.{blocks_of, blocks_at, left_of, TakesTop, TakesFirst};

use ms_base::Block;
use std::alloc::Allocator;
use std::mem;

/// A tree of blocks: empty, or forked at one of them.
#[cycle(tree)]
#[derive(Drop)]
pub enum Tree<A: Allocator> {
    Empty,
    Forked(Box<Fork<A>, A>),
}

/// A block, and the trees of those that rank before and behind it.
#[cycle(tree)]
#[derive(Drop)]
pub struct Fork<A: Allocator> {
    left: Tree<A>,
    pub block: Block,
    right: Tree<A>,
    /// How many forks stand one above the other here, 1 at least in a tree.
    height: u8,
}

impl<A: Allocator> Tree<A> {
    /// Returns whether a tree has no block.
    pub fn is_empty(&self) -> bool
        ensures none { IsTrue result → blocks_of self.now ≡ [] }
        ensures some { IsFalse result → blocks_of self.now ≢ [] }
    {
        match self {
            Tree::Empty => true,
            Tree::Forked(_) => false,
        }
    }

    /// Returns whether there is no fork to the left of that on top.
    #[inline(always)]
    fn has_no_left(&self) -> bool
        ensures { IsTrue result → left_of self.now ≡ [] }
    {
        match self {
            Tree::Empty => true,
            Tree::Forked(fork) => match fork.left {
                Tree::Empty => true,
                Tree::Forked(_) => false,
            },
        }
    }
}

impl<A: Allocator> Fork<A> {
    /// Makes a fork that is in no tree yet.
    pub fn spare() -> Fork<A> {
        Fork {
            left: Tree::Empty,
            block: Block { start: 0, words: 0 },
            right: Tree::Empty,
            height: 0,
        }
    }
}

/// Adds the spare fork's block to those of a ranked tree. Returns whether the tree is higher then.
pub fn insert<A: Allocator>(tree: &mut Tree<A>, spare: Box<Fork<A>, A>) -> bool
    ensures { IsRanked (blocks_of tree.old) →
        blocks_of tree.new ≡ with_ranked (blocks_of tree.old) spare.value.block }
{
    match tree {
        Tree::Empty => {
            put_alone(tree, spare);
            true
        }
        Tree::Forked(fork) => {
            if ranks_first(&fork.block, &spare.block) {
                let higher = insert(&mut fork.right, spare);
                level_grown(tree, higher, Side::Right)
            } else {
                let higher = insert(&mut fork.left, spare);
                level_grown(tree, higher, Side::Left)
            }
        }
    }
}

/// Takes the first block of a ranked tree that has so many words, with its fork: the fork on the
/// way that fits, and has nothing to its left that does. Where one is taken, `lower` says whether
/// the tree is lower then.
pub fn take_fit<A: Allocator>(
    tree: &mut Tree<A>,
    words: u64,
    lower: &mut bool,
) -> Option<Box<Fork<A>, A>>
    ensures found { IsRanked (blocks_of tree.old) →
        first_fit (blocks_of tree.old) words ≡ option_map (λ fork. fork.value.block) result }
    ensures left { IsRanked (blocks_of tree.old) →
        blocks_of tree.new ≡ without_fit (blocks_of tree.old) words }
    ensures unchanged { IfNone result (tree.new ≡ tree.old) }
{
    match tree {
        Tree::Empty => None,
        Tree::Forked(fork) => {
            if fork.block.words < words {
                return match take_fit(&mut fork.right, words, lower) {
                    Some(found) => {
                        *lower = level_shrunk(tree, *lower, Side::Right);
                        Some(found)
                    }
                    None => None,
                };
            }
            match take_fit(&mut fork.left, words, lower) {
                Some(found) => {
                    *lower = level_shrunk(tree, *lower, Side::Left);
                    Some(found)
                }
                None => take_top(tree, lower),
            }
        }
    }
}

/// Takes the fork on top, and joins the trees below it: mostly there is none to its left. Out of
/// line, so that what it keeps for itself isn't kept at each turn of `take_fit`.
#[inline(never)]
fn take_top<A: Allocator>(tree: &mut Tree<A>, lower: &mut bool) -> Option<Box<Fork<A>, A>>
    ensures { TakesTop tree.old (blocks_of tree.new) (option_map (λ fork. fork.value.block) result) }
{
    if tree.has_no_left() {
        *lower = true;
        return take_lowest(tree);
    }
    match mem::replace(tree, Tree::Empty) {
        Tree::Empty => None,
        Tree::Forked(mut fork) => {
            let left = mem::replace(&mut fork.left, Tree::Empty);
            let right = mem::replace(&mut fork.right, Tree::Empty);
            *tree = join(left, right);
            *lower = height_of(tree) != fork.height;
            Some(fork)
        }
    }
}

/// Joins two trees, the blocks of the first before those of the second: under the second's first
/// fork.
fn join<A: Allocator>(before: Tree<A>, mut behind: Tree<A>) -> Tree<A>
    ensures { blocks_of result ≡ blocks_of before ++ blocks_of behind }
{
    match take_first(&mut behind, &mut false) {
        None => before,
        Some(mut fork) => {
            fork.left = before;
            fork.right = behind;
            leveled(fork)
        }
    }
}

/// Takes the first fork of a tree; `lower` says then whether the tree is lower.
fn take_first<A: Allocator>(tree: &mut Tree<A>, lower: &mut bool) -> Option<Box<Fork<A>, A>>
    ensures { TakesFirst (blocks_of tree.old) (option_map (λ fork. fork.value.block) result)
        (blocks_of tree.new) }
{
    match tree {
        Tree::Empty => None,
        Tree::Forked(fork) => match take_first(&mut fork.left, lower) {
            Some(found) => {
                *lower = level_shrunk(tree, *lower, Side::Left);
                Some(found)
            }
            None => {
                *lower = true;
                take_lowest(tree)
            }
        },
    }
}

/// Takes the fork on top, where there is none to its left.
#[inline(always)]
fn take_lowest<A: Allocator>(tree: &mut Tree<A>) -> Option<Box<Fork<A>, A>>
    requires { left_of tree.old ≡ [] }
    ensures { TakesFirst (blocks_of tree.old) (option_map (λ fork. fork.value.block) result)
        (blocks_of tree.new) }
{
    match mem::replace(tree, Tree::Empty) {
        Tree::Empty => None,
        Tree::Forked(mut fork) => {
            *tree = mem::replace(&mut fork.right, Tree::Empty);
            Some(fork)
        }
    }
}

/// Puts a fork that was in no tree in the place of one. Out of line, so that what it keeps for
/// itself isn't kept at each turn of `insert`.
#[inline(never)]
fn put_alone<A: Allocator>(tree: &mut Tree<A>, mut spare: Box<Fork<A>, A>)
    ensures { blocks_of tree.new ≡ spare.value.block ∷ [] }
{
    clear(&mut spare.left);
    clear(&mut spare.right);
    spare.height = 1;
    *tree = Tree::Forked(spare);
}

/// Lets go what a tree has. Where it has nothing, as below most spare forks, nothing is called.
#[inline(always)]
fn clear<A: Allocator>(tree: &mut Tree<A>)
    ensures { blocks_of tree.new ≡ [] }
{
    if !tree.is_empty() {
        let_go(tree);
    }
}

/// Lets go all blocks of a tree.
#[inline(never)]
fn let_go<A: Allocator>(tree: &mut Tree<A>)
    ensures { blocks_of tree.new ≡ [] }
{
    *tree = Tree::Empty;
}

/// A side of a fork.
#[derive(Clone, Copy)]
enum Side {
    Left,
    Right,
}

impl Side {
    /// Returns the other side.
    #[inline(always)]
    fn other(self) -> Side {
        match self {
            Side::Left => Side::Right,
            Side::Right => Side::Left,
        }
    }
}

/// Returns how high a side of a fork is, and the other one.
#[inline(always)]
fn heights<A: Allocator>(fork: &Fork<A>, side: Side) -> (u8, u8) {
    let (left, right) = (height_of(&fork.left), height_of(&fork.right));
    match side {
        Side::Left => (left, right),
        Side::Right => (right, left),
    }
}

/// Levels a tree on top, whose sides are level, where one is higher by one than it was, and returns
/// whether the tree is higher then: not where the other side had been the higher one, and not where
/// it turns.
#[inline(always)]
fn level_grown<A: Allocator>(tree: &mut Tree<A>, grew: bool, side: Side) -> bool
    ensures { blocks_of tree.new ≡ blocks_of tree.old }
{
    if !grew {
        return false;
    }
    if let Tree::Forked(fork) = tree {
        let (grown, other) = heights(fork, side);
        if grown <= other {
            return false;
        }
        if grown == other.wrapping_add(1) {
            fork.height = grown.wrapping_add(1);
            return true;
        }
    }
    turn(tree, side);
    false
}

/// Levels a tree on top, whose sides are level, where one is lower by one than it was, and returns
/// whether the tree is lower then: not where both had been as high.
#[inline(always)]
fn level_shrunk<A: Allocator>(tree: &mut Tree<A>, shrank: bool, side: Side) -> bool
    ensures { blocks_of tree.new ≡ blocks_of tree.old }
{
    if !shrank {
        return false;
    }
    if let Tree::Forked(fork) = tree {
        let (shrunk, other) = heights(fork, side);
        if shrunk.wrapping_add(1) == other {
            return false;
        }
        if shrunk == other {
            fork.height = other.wrapping_add(1);
            return true;
        }
    }
    let height = height_of(tree);
    turn(tree, side.other());
    height_of(tree) != height
}

/// Levels a tree on top, of which a side is higher by two. Out of line, so that what it keeps for
/// itself is kept where it turns alone.
#[inline(never)]
fn turn<A: Allocator>(tree: &mut Tree<A>, higher: Side)
    ensures { blocks_of tree.new ≡ blocks_of tree.old }
{
    if let Tree::Forked(fork) = mem::replace(tree, Tree::Empty) {
        *tree = turned(fork, higher);
    }
}

/// Levels a fork whose sides are level: where one is higher by two, what stands on its top goes up.
fn leveled<A: Allocator>(mut fork: Box<Fork<A>, A>) -> Tree<A>
    ensures { blocks_of result ≡ blocks_at fork.value }
{
    if is_higher(&fork.left, &fork.right) {
        turned(fork, Side::Left)
    } else if is_higher(&fork.right, &fork.left) {
        turned(fork, Side::Right)
    } else {
        tell_height(&mut fork);
        Tree::Forked(fork)
    }
}

/// Puts what stands on top of the higher side of a fork on top of all.
fn turned<A: Allocator>(mut fork: Box<Fork<A>, A>, higher: Side) -> Tree<A>
    ensures { blocks_of result ≡ blocks_at fork.value }
{
    match higher {
        Side::Left => {
            fork.left = leaning_left(mem::replace(&mut fork.left, Tree::Empty));
            Tree::Forked(left_up(fork))
        }
        Side::Right => {
            fork.right = leaning_right(mem::replace(&mut fork.right, Tree::Empty));
            Tree::Forked(right_up(fork))
        }
    }
}

/// Turns a tree whose right side is the higher one, so that its left side isn't the lower one.
fn leaning_left<A: Allocator>(tree: Tree<A>) -> Tree<A>
    ensures { blocks_of result ≡ blocks_of tree }
{
    match tree {
        Tree::Forked(fork) if height_of(&fork.right) > height_of(&fork.left) => {
            Tree::Forked(right_up(fork))
        }
        tree => tree,
    }
}

/// Turns a tree whose left side is the higher one, so that its right side isn't the lower one.
fn leaning_right<A: Allocator>(tree: Tree<A>) -> Tree<A>
    ensures { blocks_of result ≡ blocks_of tree }
{
    match tree {
        Tree::Forked(fork) if height_of(&fork.left) > height_of(&fork.right) => {
            Tree::Forked(left_up(fork))
        }
        tree => tree,
    }
}

/// Puts the fork on top of the left side on top of all.
fn left_up<A: Allocator>(mut fork: Box<Fork<A>, A>) -> Box<Fork<A>, A>
    ensures { blocks_at result.value ≡ blocks_at fork.value }
{
    match mem::replace(&mut fork.left, Tree::Empty) {
        Tree::Empty => fork,
        Tree::Forked(mut low) => {
            mem::swap(&mut fork.left, &mut low.right);
            tell_height(&mut fork);
            low.right = Tree::Forked(fork);
            tell_height(&mut low);
            low
        }
    }
}

/// Puts the fork on top of the right side on top of all.
fn right_up<A: Allocator>(mut fork: Box<Fork<A>, A>) -> Box<Fork<A>, A>
    ensures { blocks_at result.value ≡ blocks_at fork.value }
{
    match mem::replace(&mut fork.right, Tree::Empty) {
        Tree::Empty => fork,
        Tree::Forked(mut high) => {
            mem::swap(&mut fork.right, &mut high.left);
            tell_height(&mut fork);
            high.left = Tree::Forked(fork);
            tell_height(&mut high);
            high
        }
    }
}

/// Returns whether the one tree is higher by two than the other.
fn is_higher<A: Allocator>(one: &Tree<A>, other: &Tree<A>) -> bool {
    height_of(one) > height_of(other).wrapping_add(1)
}

/// Returns how high a tree is.
fn height_of<A: Allocator>(tree: &Tree<A>) -> u8 {
    match tree {
        Tree::Empty => 0,
        Tree::Forked(fork) => fork.height,
    }
}

/// Notes anew how high a fork is.
fn tell_height<A: Allocator>(fork: &mut Fork<A>)
    ensures { blocks_at fork.new ≡ blocks_at fork.old }
{
    let sides = height_of(&fork.left).max(height_of(&fork.right));
    fork.height = sides.wrapping_add(1);
}

/// Returns whether the first block ranks before the second.
pub fn ranks_first(one: &Block, other: &Block) -> bool
    ensures { result ≡ ranks_before one.now other.now }
{
    one.words < other.words || (one.words == other.words && one.start < other.start)
}
