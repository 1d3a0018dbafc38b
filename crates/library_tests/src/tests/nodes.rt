//! That the definitions are the ones meant, on worked rows. Everything else is in the clauses.
ghost use Rattle.std.specs.Prelude.{IsTrue};
ghost use Rattle.ms_commit.specs.Nodes.{AreInReserved};

use ms_base::Refusal;
use ms_commit::Nodes;
use std::process::Abort;

/// What a row of a table asks.
#[derive(Clone, Copy, Debug)]
enum Call {
    /// A slot is to be reserved: which one it is.
    Reserve,
    /// A slot is given back: how many granules are committed then.
    Unreserve(u32),
    /// The first granule and how many: how many of them are newly committed.
    Commit(u64, u64),
    /// The first granule and how many: how many are committed then.
    Uncommit(u64, u64),
    /// A granule: 1 where it is committed, else 0.
    IsCommitted(u64),
    /// How many granules are committed.
    Committed,
}

/// What it is answered: none where it may not be asked.
type Answer = Option<Result<u64, Refusal>>;

/// Asks the rows.
fn ask_all(rt: &impl Abort, nodes: &mut Nodes, rows: &[(Call, Answer)]) {
    for (call, wanted) in rows {
        let answer = ask(nodes, *call);
        assert_eq!(rt; answer, *wanted, "at {call:?}");
    }
}

fn ask(nodes: &mut Nodes, call: Call) -> Answer {
    match call {
        Call::Reserve => match nodes.reserve() {
            Ok(slot) => Some(Ok(slot as u64)),
            Err(refusal) => Some(Err(refusal)),
        },
        Call::Unreserve(slot) => unreserve(nodes, slot),
        Call::Commit(first, count) => commit(nodes, first, count),
        Call::Uncommit(first, count) => uncommit(nodes, first, count),
        Call::IsCommitted(granule) => Some(Ok(nodes.is_committed(granule) as u64)),
        Call::Committed => Some(Ok(nodes.committed())),
    }
}

/// Returns whether a range of granules lies in reserved slots, of which it meets two at most.
fn lies_in_reserved(nodes: &Nodes, first: u64, count: u64) -> bool
    ensures { IsTrue result → AreInReserved nodes.now first count }
{
    if count == 0 || count > 129 || first >= 40960 {
        return false;
    }
    let last = first + count - 1;
    match nodes.granule() {
        2048 => {
            nodes.is_reserved((first / 512) as u32) && nodes.is_reserved((last / 512) as u32)
        }
        8192 => {
            nodes.is_reserved((first / 128) as u32) && nodes.is_reserved((last / 128) as u32)
        }
        _ => false,
    }
}

/// Commits a range that lies in reserved slots.
fn commit(nodes: &mut Nodes, first: u64, count: u64) -> Answer {
    if !lies_in_reserved(nodes, first, count) {
        return None;
    }
    Some(nodes.commit(first, count))
}

/// Uncommits a range that lies in reserved slots.
fn uncommit(nodes: &mut Nodes, first: u64, count: u64) -> Answer {
    if !lies_in_reserved(nodes, first, count) {
        return None;
    }
    nodes.uncommit(first, count);
    Some(Ok(nodes.committed()))
}

/// Gives a slot back that is reserved.
fn unreserve(nodes: &mut Nodes, slot: u32) -> Answer {
    if slot >= 64 || !nodes.is_reserved(slot) {
        return None;
    }
    nodes.unreserve(slot);
    Some(Ok(nodes.committed()))
}

/// Refused: so many granules are committed, of so many that may be, and so many more are needed.
fn over_limit(committed: u64, limit: u64, need: u64) -> Answer {
    Some(Err(Refusal::CommitLimit {
        committed,
        limit,
        need,
    }))
}

/// Refused: so many nodes are reserved, of as many that may be.
fn no_node(nodes: u32, limit: u32) -> Answer {
    Some(Err(Refusal::ReserveLimit { nodes, limit }))
}

#[test]
fn both_limits_of_nodes_are_met_and_give_way(rt: HostRuntime) {
    let rows = [
        (Call::Reserve, Some(Ok(0))),
        (Call::Reserve, Some(Ok(1))),
        (Call::Reserve, no_node(2, 2)),
        (Call::Commit(0, 2), Some(Ok(2))),
        // One of the two is committed already.
        (Call::Commit(1, 2), Some(Ok(1))),
        (Call::Commit(128, 1), over_limit(3, 3, 1)),
        (Call::Uncommit(0, 1), Some(Ok(2))),
        (Call::Commit(128, 1), Some(Ok(1))),
        (Call::Unreserve(1), Some(Ok(2))),
        (Call::Reserve, Some(Ok(1))),
        (Call::IsCommitted(128), Some(Ok(0))),
    ];
    ask_all(&rt, &mut Nodes::new(2, 3, 8192, 0), &rows);
}

/// Of one node and two of the class space.
#[test]
fn both_spaces_share_five_granules_of_2048_words(rt: HostRuntime) {
    let rows = [
        (Call::Reserve, Some(Ok(0))),
        (Call::Reserve, no_node(1, 1)),
        (Call::Commit(510, 2), Some(Ok(2))),
        (Call::Commit(32768, 2), Some(Ok(2))),
        (Call::Commit(33279, 2), over_limit(4, 5, 2)),
        (Call::Commit(32769, 2), Some(Ok(1))),
        (Call::Committed, Some(Ok(5))),
        (Call::Unreserve(0), Some(Ok(3))),
        (Call::Commit(510, 1), None),
        (Call::Reserve, Some(Ok(0))),
    ];
    ask_all(&rt, &mut Nodes::new(1, 5, 2048, 2), &rows);
}
