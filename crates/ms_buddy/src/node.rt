//! A node of the split tree: a free leaf, a lent leaf, or a split with a node for each half.
//!
//! A node does not know where it is, so each function gets its level and where it starts, in words
//! of the root. Each goes down one path: to the half where the leaf, the part or the offset lies.
//! What is kept true of a node is `IsTree` in `specs/Tree.antt`, of what the node stands for.
//! `with_lent` alone makes boxes, two for each level that it splits; `release` and `enlarge` give
//! those of the halves back that merge.
ghost use Rattle.std.specs.Prelude.{◌≡◌, ℕ, ◌+◌, ◌*◌, ◌<◌, ◌≤◌, ◌&&◌, ◌↔◌, false, [], ◌∷◌, Some, IsTrue, IsFalse};
ghost use Rattle.std.specs.Prelude.{IfSome, OnSome, IfNone, IsOk, IfOk, OnOk, IfErr, OnErr};
ghost use Rattle.std.specs.List.{find};
ghost use Rattle.ms_base.specs.declared.sizes.TheConstants.{ROOT_WORDS};
ghost use Rattle.ms_base.specs.Level.{size_of};
ghost use Rattle.ms_buddy.specs.Boxes.{IsEnlarged, shape_of};
ghost use Rattle.ms_buddy.specs.Leaves.{CarveAnswers, EnlargeAnswers, IsFront, IsLeafAt, can_enlarge, covers, is_lent, leaf_of};
ghost use Rattle.ms_buddy.specs.Leaves.{with_front, with_leaf, with_parent, without_leaf};
ghost use Rattle.ms_buddy.specs.Tree.{AreHalves, IsRootPart, IsTree, MayBeLent, free_in, free_in_halves, is_free, lent_in};
ghost use Rattle.ms_buddy.specs.Tree.{lent_in_halves};

use crate::leaf::Leaf;
use crate::parts::{part, words_of};
use ms_base::{Refusal, Span};
use std::alloc::{AllocError, Allocator};

/// A node, with the boxes of its halves in the allocator `A`.
#[derive(Drop)]
pub(crate) enum Node<A: Allocator> {
    Free,
    Lent { owner: u32, front: u64 },
    Split(Box<Node<A>, A>, Box<Node<A>, A>),
}

/// Returns the words of a half of a part of that level.
pub(crate) fn half_of(level: u8) -> u64
    requires { level < 12 }
    ensures size { result ≡ size_of (level + 1) }
    ensures some { 0 < result }
    ensures small { result ≤ ROOT_WORDS }
{
    words_of(level + 1)
}

impl<A: Allocator> Node<A> {
    /// Returns whether the node is one free leaf.
    pub(crate) fn is_free(&self) -> bool
        ensures { result ≡ is_free (shape_of self.now) }
    {
        match self {
            Node::Free => true,
            Node::Lent { .. } => false,
            Node::Split(_, _) => false,
        }
    }

    /// Answers the leaf that covers the offset, and where it is.
    pub(crate) fn leaf_at(&self, level: u8, start: u64, offset: u64) -> (Span, Leaf)
        requires tree { IsTree level (shape_of self.now) }
        requires of_root { IsRootPart level start }
        requires from { start ≤ offset }
        requires below { offset < start + size_of level }
        ensures covers { IsTrue (covers offset result.0) }
        ensures leaf { IsLeafAt offset result.0 result.1
            (lent_in level start (shape_of self.now)) (free_in level start (shape_of self.now)) }
    {
        match self {
            Node::Free => (part(start, level), Leaf::Free),
            Node::Lent { owner, front } => (
                part(start, level),
                Leaf::Lent {
                    owner: *owner,
                    front: *front,
                },
            ),
            Node::Split(lower, upper) => {
                let middle = start + half_of(level);
                if offset < middle {
                    lower.leaf_at(level + 1, start, offset)
                } else {
                    upper.leaf_at(level + 1, middle, offset)
                }
            }
        }
    }

    /// Changes the front of the leaf of that span.
    pub(crate) fn set_front(&mut self, level: u8, start: u64, span: Span, front: u64)
        requires tree { IsTree level (shape_of self.old) }
        requires of_root { IsRootPart level start }
        requires lent { IsTrue (is_lent (lent_in level start (shape_of self.old)) span) }
        requires front { IsFront (size_of span.level) front }
        ensures tree { IsTree level (shape_of self.new) }
        ensures free { is_free (shape_of self.new) ≡ is_free (shape_of self.old) }
        ensures lent { lent_in level start (shape_of self.new)
            ≡ with_front span front (lent_in level start (shape_of self.old)) }
    {
        match self {
            Node::Free => {}
            Node::Lent { front: kept, .. } => *kept = front,
            Node::Split(lower, upper) => {
                let middle = start + half_of(level);
                if span.start < middle {
                    lower.set_front(level + 1, start, span, front);
                } else {
                    upper.set_front(level + 1, middle, span, front);
                }
            }
        }
    }

    /// Takes the leaf of that span out, and answers the free part that results.
    #[cycle(releasing)]
    pub(crate) fn release(&mut self, level: u8, start: u64, span: Span) -> Span
        requires tree { IsTree level (shape_of self.old) }
        requires of_root { IsRootPart level start }
        requires lent { IsTrue (is_lent (lent_in level start (shape_of self.old)) span) }
        ensures tree { IsTree level (shape_of self.new) }
        ensures lent { lent_in level start (shape_of self.new)
            ≡ without_leaf span (lent_in level start (shape_of self.old)) }
        ensures free { find (covers span.start) (free_in level start (shape_of self.new)) ≡ Some result }
    {
        match self {
            Node::Split(lower, upper) => match release_in_half(lower, upper, level, start, span) {
                Some(freed) => freed,
                None => {
                    *self = Node::Free;
                    part(start, level)
                }
            },
            _ => {
                *self = Node::Free;
                part(start, level)
            }
        }
    }

    /// Makes the leaf of that span its parent, with another front, where its buddy is free.
    #[cycle(enlarging)]
    pub(crate) fn enlarge(
        &mut self,
        level: u8,
        start: u64,
        span: Span,
        front: u64,
    ) -> Result<(), Refusal>
        requires tree { IsTree level (shape_of self.old) }
        requires of_root { IsRootPart level start }
        requires lent { IsTrue (is_lent (lent_in level start (shape_of self.old)) span) }
        requires front { IsFront (2 * size_of span.level) front }
        ensures stays { IsTree level (shape_of self.new) × (is_free (shape_of self.new) ≡ is_free (shape_of self.old)) }
        ensures lent { OnOk result (lent_in level start (shape_of self.new)
            ≡ with_parent span front (lent_in level start (shape_of self.old))) }
        ensures answers { EnlargeAnswers span (free_in level start (shape_of self.old)) result }
        ensures unchanged { OnErr result (self.new ≡ self.old) }
    {
        match self {
            Node::Split(lower, upper) => match enlarge_in_half(
                lower, upper, level, start, span, front,
            ) {
                Ok(None) => Ok(()),
                Ok(Some(owner)) => {
                    *self = Node::Lent { owner, front };
                    Ok(())
                }
                Err(refusal) => Err(refusal),
            },
            _ => Err(Refusal::NoRoom { level: span.level }),
        }
    }
}

impl<A: Allocator + Clone> Node<A> {
    /// Makes a node with one lent leaf of that span. Takes two boxes for each level below this one.
    fn with_lent(
        alloc: A,
        level: u8,
        start: u64,
        span: Span,
        owner: u32,
        front: u64,
    ) -> Result<Node<A>, AllocError>
        requires { MayBeLent level start span front }
        ensures tree { IfOk result (λ node. IsTree level (shape_of node)) }
        ensures split { IfOk result (λ node. is_free (shape_of node) ≡ false) }
        ensures lent { IfOk result
            (λ node. lent_in level start (shape_of node) ≡ leaf_of span owner front ∷ []) }
        ensures succeeds { span.level ≡ level → IsOk result }
    {
        if span.level.number() == level {
            return Ok(Node::Lent { owner, front });
        }
        let middle = start + half_of(level);
        if span.start < middle {
            let lower = Node::with_lent(alloc.clone()?, level + 1, start, span, owner, front)?;
            let lower = Box::new(alloc.clone()?, lower)?;
            Ok(Node::Split(lower, Box::new(alloc, Node::Free)?))
        } else {
            let upper = Node::with_lent(alloc.clone()?, level + 1, middle, span, owner, front)?;
            let upper = Box::new(alloc.clone()?, upper)?;
            Ok(Node::Split(Box::new(alloc, Node::Free)?, upper))
        }
    }

    /// Lends the part of that span, where it lies in one free leaf.
    #[cycle(carving)]
    pub(crate) fn carve(
        &mut self,
        alloc: A,
        level: u8,
        start: u64,
        span: Span,
        owner: u32,
        front: u64,
    ) -> Result<(), Refusal>
        requires tree { IsTree level (shape_of self.old) }
        requires may { MayBeLent level start span front }
        ensures tree { IsTree level (shape_of self.new) }
        ensures split { OnOk result (is_free (shape_of self.new) ≡ false) }
        ensures lent { OnOk result (lent_in level start (shape_of self.new)
            ≡ with_leaf (leaf_of span owner front) (lent_in level start (shape_of self.old))) }
        ensures answers { CarveAnswers span (free_in level start (shape_of self.old)) result }
        ensures unchanged { OnErr result (self.new ≡ self.old) }
    {
        match self {
            Node::Free => match Node::with_lent(alloc, level, start, span, owner, front) {
                Ok(node) => {
                    *self = node;
                    Ok(())
                }
                Err(_) => Err(Refusal::OutOfMemory),
            },
            Node::Lent { .. } => Err(Refusal::NoRoom { level: span.level }),
            Node::Split(lower, upper) => {
                if span.level.number() == level {
                    Err(Refusal::NoRoom { level: span.level })
                } else {
                    carve_in_half(lower, upper, alloc, level, start, span, owner, front)
                }
            }
        }
    }
}

/// Enlarges the leaf of that span in the half where it is. Where the halves become one leaf, they
/// stay, and the answer is who holds it.
#[cycle(enlarging)]
fn enlarge_in_half<A: Allocator>(
    lower: &mut Node<A>,
    upper: &mut Node<A>,
    level: u8,
    start: u64,
    span: Span,
    front: u64,
) -> Result<Option<u32>, Refusal>
    requires halves { AreHalves level start (shape_of lower.old) (shape_of upper.old) }
    requires lent { IsTrue (is_lent (lent_in_halves level start (shape_of lower.old) (shape_of upper.old)) span) }
    requires front { IsFront (2 * size_of span.level) front }
    ensures trees { IsTree (level + 1) (shape_of lower.new) × IsTree (level + 1) (shape_of upper.new) }
    ensures split { (is_free (shape_of lower.new)
        ≡ is_free (shape_of lower.old)) × (is_free (shape_of upper.new) ≡ is_free (shape_of upper.old)) }
    ensures lent { IfOk result
        (λ owner. IsEnlarged level start owner front (shape_of lower.new) (shape_of upper.new)
        (with_parent span front (lent_in_halves level start (shape_of lower.old) (shape_of upper.old)))
        × OnSome owner (front ≤ size_of level)) }
    ensures answers { EnlargeAnswers span
        (free_in_halves level start (shape_of lower.old) (shape_of upper.old)) result }
    ensures unchanged { OnErr result ((lower.new ≡ lower.old) × (upper.new ≡ upper.old)) }
{
    let middle = start + half_of(level);
    if span.level.number() == level + 1 {
        merged_leader(lower, upper, level, start, span)
    } else if span.start < middle {
        match lower.enlarge(level + 1, start, span, front) {
            Ok(()) => Ok(None),
            Err(refusal) => Err(refusal),
        }
    } else {
        match upper.enlarge(level + 1, middle, span, front) {
            Ok(()) => Ok(None),
            Err(refusal) => Err(refusal),
        }
    }
}

/// Returns who holds the leaf of that span, where it is the lower half and the upper one is free.
fn merged_leader<A: Allocator>(
    lower: &Node<A>,
    upper: &Node<A>,
    level: u8,
    start: u64,
    span: Span,
) -> Result<Option<u32>, Refusal>
    requires low { level < 12 }
    requires of_root { IsRootPart level start }
    requires trees { IsTree (level + 1) (shape_of lower.now) × IsTree (level + 1) (shape_of upper.now) }
    requires lent { IsTrue (is_lent (lent_in_halves level start (shape_of lower.now) (shape_of upper.now)) span) }
    requires child { span.level ≡ level + 1 }
    ensures lent { IfOk result
        (λ owner. (front : ℕ) → IsEnlarged level start owner front (shape_of lower.now) (shape_of upper.now)
        (with_parent span front (lent_in_halves level start (shape_of lower.now) (shape_of upper.now)))) }
    ensures room { IsOk result
        ↔ IsTrue (can_enlarge span (free_in_halves level start (shape_of lower.now) (shape_of upper.now))) }
    ensures refusal { IfErr result (λ refusal. refusal ≡ Refusal.NoRoom span.level) }
{
    let no_room = Err(Refusal::NoRoom { level: span.level });
    if span.start > start {
        return no_room;
    }
    match upper {
        Node::Free => match lower {
            Node::Lent { owner, .. } => Ok(Some(*owner)),
            // A leaf of this level that starts here is the whole of the lower half.
            Node::Free => no_room,
            Node::Split(_, _) => no_room,
        },
        Node::Lent { .. } => no_room,
        Node::Split(_, _) => no_room,
    }
}

/// Lends the part of that span within the half where it lies.
#[cycle(carving)]
fn carve_in_half<A: Allocator + Clone>(
    lower: &mut Node<A>,
    upper: &mut Node<A>,
    alloc: A,
    level: u8,
    start: u64,
    span: Span,
    owner: u32,
    front: u64,
) -> Result<(), Refusal>
    requires low { level < span.level }
    requires trees { IsTree (level + 1) (shape_of lower.old) × IsTree (level + 1) (shape_of upper.old) }
    requires may { MayBeLent level start span front }
    ensures trees { IsTree (level + 1) (shape_of lower.new) × IsTree (level + 1) (shape_of upper.new) }
    ensures split { OnOk result (IsFalse (is_free (shape_of lower.new) && is_free (shape_of upper.new))) }
    ensures lent { OnOk result (lent_in_halves level start (shape_of lower.new) (shape_of upper.new)
        ≡ with_leaf (leaf_of span owner front) (lent_in_halves level start (shape_of lower.old) (shape_of upper.old))) }
    ensures answers { CarveAnswers span
        (free_in_halves level start (shape_of lower.old) (shape_of upper.old)) result }
    ensures unchanged { OnErr result ((lower.new ≡ lower.old) × (upper.new ≡ upper.old)) }
{
    let middle = start + half_of(level);
    if span.start < middle {
        lower.carve(alloc, level + 1, start, span, owner, front)
    } else {
        upper.carve(alloc, level + 1, middle, span, owner, front)
    }
}

/// Passes a span on, unless both halves are one free leaf each.
fn unless_free<A: Allocator>(lower: &Node<A>, upper: &Node<A>, span: Span) -> Option<Span>
    ensures same { IfSome result (λ other. other ≡ span) }
    ensures split { OnSome result (IsFalse (is_free (shape_of lower.now) && is_free (shape_of upper.now))) }
    ensures free { IfNone result (IsTrue (is_free (shape_of lower.now) && is_free (shape_of upper.now))) }
{
    if lower.is_free() && upper.is_free() {
        None
    } else {
        Some(span)
    }
}

/// Takes the leaf of that span out of the half where it is, and answers the free part that results
/// there, unless both halves are then free.
#[cycle(releasing)]
fn release_in_half<A: Allocator>(
    lower: &mut Node<A>,
    upper: &mut Node<A>,
    level: u8,
    start: u64,
    span: Span,
) -> Option<Span>
    requires halves { AreHalves level start (shape_of lower.old) (shape_of upper.old) }
    requires lent { IsTrue (is_lent (lent_in_halves level start (shape_of lower.old) (shape_of upper.old)) span) }
    ensures trees { IsTree (level + 1) (shape_of lower.new) × IsTree (level + 1) (shape_of upper.new) }
    ensures lent { lent_in_halves level start (shape_of lower.new) (shape_of upper.new)
        ≡ without_leaf span (lent_in_halves level start (shape_of lower.old) (shape_of upper.old)) }
    ensures free { IfSome result
        (λ freed. find (covers span.start) (free_in_halves level start (shape_of lower.new) (shape_of upper.new))
        ≡ Some freed) }
    ensures split { OnSome result (IsFalse (is_free (shape_of lower.new) && is_free (shape_of upper.new))) }
    ensures merged { IfNone result (IsTrue (is_free (shape_of lower.new) && is_free (shape_of upper.new))) }
{
    let middle = start + half_of(level);
    if span.start < middle {
        let freed = lower.release(level + 1, start, span);
        unless_free(lower, upper, freed)
    } else {
        let freed = upper.release(level + 1, middle, span);
        unless_free(lower, upper, freed)
    }
}
