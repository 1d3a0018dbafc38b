//! The rows of a root chunk's splits, of a table of parts and of a tree in boxes: a part is to be lent;
//! lent leaves are changed, enlarged and released.
ghost use Rattle.std.specs.Prelude.{◌<◌, IfSome, IsTrue};
ghost use Rattle.ms_base.specs.declared.sizes.TheConstants.{ROOT_WORDS};
ghost use Rattle.ms_buddy.specs.Leaves.{is_lent};

use crate::row::{Answer, Row, line, mark, say, tell, told, unprepared};
use ms_base::{Level, Refusal, Span};
use ms_buddy::{Leaf, PartTable, RootChunkArea, SplitTree};
use std::alloc::Global;
use std::fmt::Debug;
use std::io;

/// Prints the row of a table of parts.
pub(crate) fn tell_all(rt: &HostRuntime) -> io::Result<()> {
    let Ok(mut table) = lending::<PartTable<Global>>(rt.alloc()) else {
        return Err(unprepared());
    };
    mark(rt, "tree");
    tell_table(rt, &table);
    for offset in [0, 512] {
        tell_larger(rt, "tree", &mut table, offset);
        tell_table(rt, &table);
    }
    for offset in [512, 0, 0] {
        tell_fact(rt, "tree", "release", &release(&mut table, offset));
        tell_table(rt, &table);
    }
    drop(table);
    Ok(())
}

/// Prints the row of a tree in boxes.
pub(crate) fn tell_boxes(rt: &HostRuntime) -> io::Result<()> {
    let Ok(mut tree) = lending::<SplitTree<Global>>(rt.alloc()) else {
        return Err(unprepared());
    };
    mark(rt, "boxes");
    tell_leaves(rt, "boxes", &tree);
    for offset in [0, 512] {
        tell_larger(rt, "boxes", &mut tree, offset);
        tell_leaves(rt, "boxes", &tree);
    }
    for offset in [512, 0, 0] {
        tell_fact(rt, "boxes", "release", &release(&mut tree, offset));
        tell_leaves(rt, "boxes", &tree);
    }
    drop(tree);
    Ok(())
}

/// Prints a fact of a row on a line of its own.
fn tell_fact<F: Debug>(rt: &HostRuntime, row: &str, about: &str, fact: &F) {
    let _ = print!(rt; "{row} ");
    line(rt, about, fact);
}

/// Makes the leaf there larger, with the front.
fn tell_larger<T: RootChunkArea<Global>>(rt: &HostRuntime, row: &str, area: &mut T, offset: u64)
    requires { offset < ROOT_WORDS }
{
    tell_fact(rt, row, "front", &set_front(area, offset));
    tell_fact(rt, row, "enlarge", &enlarge(area, offset));
}

/// Makes the splits of a root of which two parts are lent, the lower with a free buddy.
fn lending<T: RootChunkArea<Global> + Drop>(alloc: Global) -> Result<T, Refusal> {
    let mut area = T::new();
    area.carve(alloc, Level::new(10), 512, 1, 100)?;
    area.carve(alloc, Level::new(12), 0, 2, 7)?;
    Ok(area)
}

/// Finds the lent leaf that covers an offset.
fn lent_at<T: RootChunkArea<Global>>(area: &T, offset: u64) -> Option<Span>
    requires { offset < ROOT_WORDS }
    ensures { IfSome result (λ span. IsTrue (is_lent (T.lent area.now) span)) }
{
    match area.leaf_at(offset) {
        (span, Leaf::Lent { .. }) => Some(span),
        (_, Leaf::Free) => None,
    }
}

/// Makes the front of the leaf there as large as the leaf, and prints how large.
fn set_front<T: RootChunkArea<Global>>(area: &mut T, offset: u64) -> Option<u64>
    requires { offset < ROOT_WORDS }
{
    let span = lent_at(area, offset)?;
    let words = span.level.words();
    area.set_front(span, words);
    Some(words)
}

/// Prints whether the leaf there can become its parent.
fn can_enlarge(table: &PartTable<Global>, offset: u64) -> Option<bool>
    requires { offset < ROOT_WORDS }
{
    let span = lent_at(table, offset)?;
    Some(table.can_enlarge(span))
}

/// Makes the leaf there its parent.
fn enlarge<T: RootChunkArea<Global>>(area: &mut T, offset: u64) -> Option<Result<Span, Refusal>>
    requires { offset < ROOT_WORDS }
{
    let span = lent_at(area, offset)?;
    let words = span.level.words();
    Some(area.enlarge(span, words))
}

/// Takes the leaf there out.
fn release<T: RootChunkArea<Global>>(area: &mut T, offset: u64) -> Option<Span>
    requires { offset < ROOT_WORDS }
{
    let span = lent_at(area, offset)?;
    Some(area.release(span))
}

/// Prints the leaves of a tree in boxes, and whether it is whole.
fn tell_leaves(rt: &HostRuntime, row: &str, tree: &SplitTree<Global>) {
    tell_some(rt, row, tree);
    tell_fact(rt, row, "is whole", &tree.is_whole());
    for span in tree.free_leaves() {
        tell_fact(rt, row, "free", &span);
    }
}

/// Prints the leaves at some offsets.
fn tell_some<T: RootChunkArea<Global>>(rt: &HostRuntime, row: &str, area: &T) {
    for offset in [0, 128, 512] {
        tell_fact(rt, row, "leaf", &area.leaf_at(offset));
    }
}

/// Prints the leaves of a table and what the searches find.
fn tell_table(rt: &HostRuntime, table: &PartTable<Global>) {
    tell_some(rt, "tree", table);
    let level = Level::new(10);
    line(
        rt,
        "tree is whole",
        &(table.is_whole(), table.free_levels()),
    );
    line(
        rt,
        "tree can",
        &(can_enlarge(table, 0), can_enlarge(table, 512)),
    );
    line(
        rt,
        "tree found",
        &(table.lowest_free(level), table.next_free(level, 512)),
    );
    for span in table.free_leaves() {
        line(rt, "tree free", &span);
    }
    for number in 8..13 {
        let count = table.free_count(Level::new(number));
        line(rt, "tree count", &(number, count));
    }
}

/// The splits of a root, of which a part is to be lent.
#[derive(Drop)]
pub(crate) struct Carving<T> {
    alloc: Global,
    area: T,
}

impl Carving<PartTable<Global>> {
    /// Prepares a table that has lent nothing: it takes memory as the root is split for the first
    /// time.
    pub(crate) fn prepared(alloc: Global) -> Carving<PartTable<Global>> {
        let area = PartTable::new();
        Carving { alloc, area }
    }
}

impl Carving<SplitTree<Global>> {
    /// Prepares a tree that has lent nothing: it takes two boxes for each level that is split.
    pub(crate) fn in_boxes(alloc: Global) -> Carving<SplitTree<Global>> {
        let area = SplitTree::new();
        Carving { alloc, area }
    }
}

impl<T: RootChunkArea<Global>> Row for Carving<T> {
    fn tell_state(&mut self, rt: &HostRuntime) -> io::Result<()> {
        for offset in [0, 128, 512, 1024] {
            tell(rt, &self.area.leaf_at(offset));
        }
        say(rt, "free");
        for span in self.area.free_leaves() {
            tell(rt, &span);
        }
        Ok(())
    }

    fn call(&mut self, rt: &HostRuntime) -> Answer {
        told(rt, self.area.carve(self.alloc, Level::new(12), 0, 2, 7))
    }
}
