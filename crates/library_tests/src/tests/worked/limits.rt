//! Rows of limits and policies: what each refusal names, and which granules are committed.
use super::{Row, expect_worked};
use crate::tests::limited;
use ms_base::Policy;

/// A granule more than the limit: nothing changes.
const COMMIT_LIMIT: Row = Row {
    trace: "new 1 standard
alloc 1 1 8192
new 2 standard
alloc 2 1 1
",
    wanted: "Ok; granules 0; roots; free 0 and 0
At(0); granules 1; roots 0 1; free 1 and 0
Ok; granules 1; roots 0 1; free 1 and 0
Refused(CommitLimit { committed: 1, limit: 1, need: 1 }); granules 1; roots 0 1; free 1 and 0
loader 1
  at 0 of level 6, front 8192
  used 8192, live 8192, free 0, waste 0
loader 2
",
};

/// A node more than the limit.
const RESERVE_LIMIT: Row = Row {
    trace: "new 1 boot
alloc 1 1 1
new 2 boot
alloc 2 1 1
new 3 boot
alloc 3 1 1
",
    wanted: "Ok; granules 0; roots; free 0 and 0
At(0); granules 1; roots 0 1; free 1 and 0
Ok; granules 1; roots 0 1; free 1 and 0
At(524288); granules 2; roots 0 1; free 0 and 0
Ok; granules 2; roots 0 1; free 0 and 0
Refused(ReserveLimit { nodes: 1, limit: 1 }); granules 2; roots 0 1; free 0 and 0
loader 1
  at 0 of level 0, front 8192
  used 2, live 2, free 0, waste 0
loader 2
  at 524288 of level 0, front 8192
  used 2, live 2, free 0, waste 0
loader 3
",
};

/// Where the limit refuses a growth, a committed part serves.
const REFUSED_GROWTH: Row = Row {
    trace: "new 1 boot
alloc 1 1 8192
new 2 hidden
alloc 2 1 10
alloc 1 2 20
",
    wanted: "Ok; granules 0; roots; free 0 and 0
At(0); granules 1; roots 0 1; free 1 and 0
Ok; granules 1; roots 0 1; free 1 and 0
At(524288); granules 2; roots 0 1; free 0 and 0
At(528384); granules 2; roots 0 1; free 0 and 0
loader 1
  at 0 of level 0, front 8192
  at 528384 of level 7, front 4096
  used 8212, live 8212, free 0, waste 0
loader 2
  at 524288 of level 12, front 128
  used 10, live 10, free 0, waste 0
",
};

/// With the limit met, a committed part serves still.
const LIMIT_MET: Row = Row {
    trace: "new 1 reflection
alloc 1 1 2
alloc 1 2 509
",
    wanted: "Ok; granules 0; roots; free 0 and 0
At(0); granules 1; roots 0 1; free 1 and 0
At(512); granules 1; roots 0 1; free 1 and 0
loader 1
  at 0 of level 11, front 256
  at 512 of level 10, front 512
  used 765, live 511, free 254, waste 0
",
};

#[test]
fn both_limits_are_met_with_their_numbers(rt: HostRuntime) {
    expect_worked(
        &rt,
        limited(64, 1, Policy::Balanced, 0),
        &[COMMIT_LIMIT, LIMIT_MET],
    );
    expect_worked(&rt, limited(1, 8192, Policy::Balanced, 0), &[RESERVE_LIMIT]);
    expect_worked(&rt, limited(64, 2, Policy::Balanced, 0), &[REFUSED_GROWTH]);
}

/// A granule of policy aggressive has 2048 words.
const FINE_GRANULES: Row = Row {
    trace: "new 1 standard
alloc 1 1 10
new 2 standard
alloc 2 1 2049
",
    wanted: "Ok; granules 0; roots; free 0 and 0
At(0); granules 1; roots 0 1; free 1 and 0
Ok; granules 1; roots 0 1; free 1 and 0
At(4096); granules 3; roots 0 1; free 1 and 0
loader 1
  at 0 of level 10, front 512
  used 10, live 10, free 0, waste 0
loader 2
  at 4096 of level 7, front 4096
  used 2049, live 2049, free 0, waste 0
",
};

/// Policy none commits a chunk whole, and keeps that until the node goes.
const NONE_AND_PURGE: Row = Row {
    trace: "new 1 boot
alloc 1 1 1
unload 1
purge
",
    wanted: "Ok; granules 0; roots; free 0 and 0
At(0); granules 64; roots 0 1; free 1 and 0
Ok; granules 64; roots 0 1; free 2 and 0
Ok; granules 0; roots; free 0 and 0
",
};

/// Policy none needs all granules of a root.
const NONE_REFUSED: Row = Row {
    trace: "new 1 boot
alloc 1 1 1
",
    wanted: "Ok; granules 0; roots; free 0 and 0
Refused(CommitLimit { committed: 0, limit: 63, need: 64 }); granules 0; roots; free 0 and 0
loader 1
",
};

/// What policy none left committed serves, though the limit is met.
const NONE_SERVES_AGAIN: Row = Row {
    trace: "new 1 boot
alloc 1 1 1
unload 1
new 2 standard
alloc 2 1 10
",
    wanted: "Ok; granules 0; roots; free 0 and 0
At(0); granules 64; roots 0 1; free 1 and 0
Ok; granules 64; roots 0 1; free 2 and 0
Ok; granules 64; roots 0 1; free 2 and 0
At(0); granules 64; roots 0 1; free 1 and 0
loader 2
  at 0 of level 10, front 512
  used 10, live 10, free 0, waste 0
",
};

#[test]
fn each_policy_commits_as_it_was_worked(rt: HostRuntime) {
    expect_worked(
        &rt,
        limited(64, 8192, Policy::Aggressive, 0),
        &[FINE_GRANULES],
    );
    expect_worked(&rt, limited(64, 8192, Policy::None, 0), &[NONE_AND_PURGE]);
    expect_worked(&rt, limited(64, 63, Policy::None, 0), &[NONE_REFUSED]);
    expect_worked(&rt, limited(64, 64, Policy::None, 0), &[NONE_SERVES_AGAIN]);
}
