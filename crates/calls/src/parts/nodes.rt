//! The row of nodes: slots are reserved and granules committed, up to both limits, and given back.
ghost use Rattle.std.specs.Prelude.{IsTrue};
ghost use Rattle.ms_commit.specs.Nodes.{AreInReserved};

use crate::row::{line, mark};
use ms_base::Refusal;
use ms_commit::Nodes;
use std::io;

/// Prints the row.
pub(crate) fn tell_all(rt: &HostRuntime) -> io::Result<()> {
    mark(rt, "nodes");
    let mut nodes = Nodes::new(1, 3, 8192, 1);
    line(rt, "nodes reserve", &(nodes.reserve(), nodes.reserve()));
    tell_commits(rt, &mut nodes);
    tell_nodes(rt, &nodes);
    if let Some(slot) = nodes.next_reserved(0) {
        nodes.unreserve(slot);
        line(rt, "nodes unreserved", &slot);
    }
    tell_nodes(rt, &nodes);
    Ok(())
}

/// Commits granules of a node and of the class space, and uncommits some.
fn tell_commits(rt: &HostRuntime, nodes: &mut Nodes) {
    for (first, count) in [(0, 2), (8192, 1), (127, 1), (300, 1)] {
        line(
            rt,
            "nodes commit",
            &(first, count, commit(nodes, first, count)),
        );
    }
    tell_nodes(rt, nodes);
    line(
        rt,
        "nodes uncommit",
        &(uncommit(nodes, 1, 1), uncommit(nodes, 0, 0)),
    );
    line(rt, "nodes missing", &nodes.missing(0, 4));
}

/// Commits a range that lies in reserved slots.
fn commit(nodes: &mut Nodes, first: u64, count: u64) -> Option<Result<u64, Refusal>> {
    if !lies_in_reserved(nodes, first, count) {
        return None;
    }
    Some(nodes.commit(first, count))
}

/// Uncommits a range that lies in reserved slots.
fn uncommit(nodes: &mut Nodes, first: u64, count: u64) -> bool {
    if !lies_in_reserved(nodes, first, count) {
        return false;
    }
    nodes.uncommit(first, count);
    true
}

/// Prints whether a range lies in reserved slots, of which it meets two at most.
fn lies_in_reserved(nodes: &Nodes, first: u64, count: u64) -> bool
    ensures { IsTrue result → AreInReserved nodes.now first count }
{
    if nodes.granule() != 8192 || count == 0 || count > 129 || first >= 40960 {
        return false;
    }
    let last = first + count - 1;
    nodes.is_reserved((first / 128) as u32) && nodes.is_reserved((last / 128) as u32)
}

/// Prints what is reserved and committed, and the limits.
fn tell_nodes(rt: &HostRuntime, nodes: &Nodes) {
    let slots = (nodes.reserved(), nodes.node_limit(), nodes.class_slots());
    line(rt, "nodes slots", &slots);
    line(
        rt,
        "nodes granules",
        &(nodes.committed(), nodes.granule_limit()),
    );
    for granule in [0, 1, 127, 300, 8192] {
        line(rt, "nodes committed", &nodes.is_committed(granule));
    }
    line(
        rt,
        "nodes slot",
        &(nodes.is_reserved(0), nodes.is_reserved(64)),
    );
}
