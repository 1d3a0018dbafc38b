//! The row of what is unloaded and purged: its parts come back.
use super::{Row, expect_worked};
use ms_base::Settings;

/// No step, no node.
const NOTHING: Row = Row {
    trace: "",
    wanted: "",
};

/// Once both loaders are gone, both roots are whole, and the node goes.
const UNLOADED: Row = Row {
    trace: "new 1 standard
alloc 1 1 10
new 2 standard
alloc 2 1 10
unload 1
unload 2
purge
",
    wanted: "Ok; granules 0; roots; free 0 and 0
At(0); granules 1; roots 0 1; free 1 and 0
Ok; granules 1; roots 0 1; free 1 and 0
At(512); granules 1; roots 0 1; free 1 and 0
Ok; granules 1; roots 0 1; free 1 and 0
Ok; granules 0; roots 0 1; free 2 and 0
Ok; granules 0; roots; free 0 and 0
",
};

/// The slot that a purge gave back is the next one, once no root is free.
const PURGED_SLOT: Row = Row {
    trace: "new 1 boot
new 2 boot
new 3 boot
new 4 boot
new 5 boot
alloc 1 1 524288
alloc 2 1 524288
alloc 3 1 524288
alloc 4 1 524288
alloc 5 1 524288
unload 3
unload 4
purge
new 6 boot
new 7 boot
alloc 6 1 524288
alloc 7 1 524288
",
    wanted: "Ok; granules 0; roots; free 0 and 0
Ok; granules 0; roots; free 0 and 0
Ok; granules 0; roots; free 0 and 0
Ok; granules 0; roots; free 0 and 0
Ok; granules 0; roots; free 0 and 0
At(0); granules 64; roots 0 1; free 1 and 0
At(524288); granules 128; roots 0 1; free 0 and 0
At(1048576); granules 192; roots 0 1 2 3; free 1 and 0
At(1572864); granules 256; roots 0 1 2 3; free 0 and 0
At(2097152); granules 320; roots 0 1 2 3 4 5; free 1 and 0
Ok; granules 256; roots 0 1 2 3 4 5; free 2 and 0
Ok; granules 192; roots 0 1 2 3 4 5; free 3 and 0
Ok; granules 192; roots 0 1 4 5; free 1 and 0
Ok; granules 192; roots 0 1 4 5; free 1 and 0
Ok; granules 192; roots 0 1 4 5; free 1 and 0
At(2621440); granules 256; roots 0 1 4 5; free 0 and 0
At(1048576); granules 320; roots 0 1 2 3 4 5; free 1 and 0
loader 1
  at 0 of level 0, front 524288
  used 524288, live 524288, free 0, waste 0
loader 2
  at 524288 of level 0, front 524288
  used 524288, live 524288, free 0, waste 0
loader 5
  at 2097152 of level 0, front 524288
  used 524288, live 524288, free 0, waste 0
loader 6
  at 2621440 of level 0, front 524288
  used 524288, live 524288, free 0, waste 0
loader 7
  at 1048576 of level 0, front 524288
  used 524288, live 524288, free 0, waste 0
",
};

#[test]
fn what_is_unloaded_and_purged_comes_back(rt: HostRuntime) {
    expect_worked(&rt, Settings::DEFAULT, &[NOTHING, UNLOADED, PURGED_SLOT]);
}
