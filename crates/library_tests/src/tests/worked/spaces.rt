//! The row of both spaces: the class space has chunks of its own.
use super::{Row, expect_worked};
use crate::tests::limited;
use ms_base::{Policy, Settings};

/// A loader has chunks in both spaces.
const BOTH_SPACES: Row = Row {
    trace: "new 1 standard
calloc 1 1 10
alloc 1 2 10
",
    wanted: "Ok; granules 0; roots 128 129; free 0 and 2
At(67108864); granules 1; roots 128 129; free 0 and 1
At(0); granules 2; roots 0 1 128 129; free 1 and 1
loader 1
  at 0 of level 10, front 512
  used 10, live 10, free 0, waste 0
  at 67108864 of level 11, front 256
  used 10, live 10, free 0, waste 0
",
};

/// No class space, no class block.
const NO_CLASS_SPACE: Row = Row {
    trace: "new 1 standard
calloc 1 1 10
",
    wanted: "Ok; granules 0; roots; free 0 and 0
Refused(ReserveLimit { nodes: 0, limit: 0 }); granules 0; roots; free 0 and 0
loader 1
",
};

/// The class space's node is used up and stays, whole and with nothing committed.
const CLASS_NODE_STAYS: Row = Row {
    trace: "new 1 boot
calloc 1 1 524288
calloc 1 2 524288
calloc 1 3 2
unload 1
purge
",
    wanted: "Ok; granules 0; roots 128 129; free 0 and 2
At(67108864); granules 64; roots 128 129; free 0 and 1
At(67633152); granules 128; roots 128 129; free 0 and 0
Refused(ReserveLimit { nodes: 1, limit: 1 }); granules 128; roots 128 129; free 0 and 0
Ok; granules 0; roots 128 129; free 0 and 2
Ok; granules 0; roots 128 129; free 0 and 2
",
};

#[test]
fn the_class_space_has_chunks_of_its_own(rt: HostRuntime) {
    expect_worked(
        &rt,
        limited(64, 8192, Policy::Balanced, 1),
        &[BOTH_SPACES, CLASS_NODE_STAYS],
    );
    expect_worked(&rt, Settings::DEFAULT, &[NO_CLASS_SPACE]);
}
