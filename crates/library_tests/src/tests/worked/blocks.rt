//! Rows of blocks, free blocks and names: where each block comes to lie, and which is refused.
use super::{Row, expect_worked};
use ms_base::Settings;

/// The first block has the first chunk, of 512 words.
const FIRST: Row = Row {
    trace: "new 1 standard
alloc 1 1 10
",
    wanted: "Ok; granules 0; roots; free 0 and 0
At(0); granules 1; roots 0 1; free 1 and 0
loader 1
  at 0 of level 10, front 512
  used 10, live 10, free 0, waste 0
",
};

/// Two loaders have a chunk each, in one granule.
const TWO_LOADERS: Row = Row {
    trace: "new 1 standard
alloc 1 1 10
new 2 standard
alloc 2 1 10
",
    wanted: "Ok; granules 0; roots; free 0 and 0
At(0); granules 1; roots 0 1; free 1 and 0
Ok; granules 1; roots 0 1; free 1 and 0
At(512); granules 1; roots 0 1; free 1 and 0
loader 1
  at 0 of level 10, front 512
  used 10, live 10, free 0, waste 0
loader 2
  at 512 of level 10, front 512
  used 10, live 10, free 0, waste 0
",
};

/// A leader takes its free buddy in.
const ENLARGED: Row = Row {
    trace: "new 1 standard
alloc 1 1 10
alloc 1 2 500
alloc 1 3 10
",
    wanted: "Ok; granules 0; roots; free 0 and 0
At(0); granules 1; roots 0 1; free 1 and 0
At(10); granules 1; roots 0 1; free 1 and 0
At(510); granules 1; roots 0 1; free 1 and 0
loader 1
  at 0 of level 9, front 1024
  used 520, live 520, free 0, waste 0
",
};

/// A chunk whose buddy is lent is retired: two words of it are a free block.
const RETIRED: Row = Row {
    trace: "new 1 standard
alloc 1 1 10
new 2 standard
alloc 2 1 10
alloc 1 2 500
alloc 1 3 10
",
    wanted: "Ok; granules 0; roots; free 0 and 0
At(0); granules 1; roots 0 1; free 1 and 0
Ok; granules 1; roots 0 1; free 1 and 0
At(512); granules 1; roots 0 1; free 1 and 0
At(10); granules 1; roots 0 1; free 1 and 0
At(1024); granules 1; roots 0 1; free 1 and 0
loader 1
  at 0 of level 10, front 512
  at 1024 of level 10, front 512
  used 522, live 520, free 2, waste 0
loader 2
  at 512 of level 10, front 512
  used 10, live 10, free 0, waste 0
",
};

/// Where that free block lies shows the next block that fits.
const SALVAGED: Row = Row {
    trace: "new 1 standard
alloc 1 1 10
new 2 standard
alloc 2 1 10
alloc 1 2 500
alloc 1 3 10
alloc 1 4 2
write 1 4 1 8
read 1 4 1
",
    wanted: "Ok; granules 0; roots; free 0 and 0
At(0); granules 1; roots 0 1; free 1 and 0
Ok; granules 1; roots 0 1; free 1 and 0
At(512); granules 1; roots 0 1; free 1 and 0
At(10); granules 1; roots 0 1; free 1 and 0
At(1024); granules 1; roots 0 1; free 1 and 0
At(510); granules 1; roots 0 1; free 1 and 0
Ok; granules 1; roots 0 1; free 1 and 0
Value(8); granules 1; roots 0 1; free 1 and 0
loader 1
  at 0 of level 10, front 512
  at 1024 of level 10, front 512
  used 522, live 522, free 0, waste 0
loader 2
  at 512 of level 10, front 512
  used 10, live 10, free 0, waste 0
",
};

/// After two large blocks a small one has a chunk by the growth table again.
const LARGE_AND_SMALL: Row = Row {
    trace: "new 1 standard
alloc 1 1 4096
alloc 1 2 4096
alloc 1 3 1
",
    wanted: "Ok; granules 0; roots; free 0 and 0
At(0); granules 1; roots 0 1; free 1 and 0
At(4096); granules 1; roots 0 1; free 1 and 0
At(8192); granules 2; roots 0 1; free 1 and 0
loader 1
  at 0 of level 7, front 4096
  at 4096 of level 7, front 4096
  at 8192 of level 10, front 512
  used 8194, live 8194, free 0, waste 0
",
};

/// A root chunk is committed as far as it is used, and the next chunk is a quarter of a root.
const ROOT_CHUNK: Row = Row {
    trace: "new 1 boot
alloc 1 1 100
alloc 1 2 8100
alloc 1 3 516088
alloc 1 4 2
",
    wanted: "Ok; granules 0; roots; free 0 and 0
At(0); granules 1; roots 0 1; free 1 and 0
At(100); granules 2; roots 0 1; free 1 and 0
At(8200); granules 64; roots 0 1; free 1 and 0
At(524288); granules 65; roots 0 1; free 0 and 0
loader 1
  at 0 of level 0, front 524288
  at 524288 of level 2, front 8192
  used 524290, live 524290, free 0, waste 0
",
};

/// A root chunk is the most that one block gets.
const LARGEST: Row = Row {
    trace: "new 1 standard
alloc 1 1 524288
alloc 1 2 524289
alloc 1 2 0
",
    wanted: "Ok; granules 0; roots; free 0 and 0
At(0); granules 64; roots 0 1; free 1 and 0
Refused(TooLarge); granules 64; roots 0 1; free 1 and 0
Refused(ZeroWords); granules 64; roots 0 1; free 1 and 0
loader 1
  at 0 of level 0, front 524288
  used 524288, live 524288, free 0, waste 0
",
};

/// A smaller committed part comes before a greater one that isn't.
const SMALLER_COMES_FIRST: Row = Row {
    trace: "new 1 hidden
alloc 1 1 10
new 2 boot
alloc 2 1 1
",
    wanted: "Ok; granules 0; roots; free 0 and 0
At(0); granules 1; roots 0 1; free 1 and 0
Ok; granules 1; roots 0 1; free 1 and 0
At(4096); granules 1; roots 0 1; free 1 and 0
loader 1
  at 0 of level 12, front 128
  used 10, live 10, free 0, waste 0
loader 2
  at 4096 of level 7, front 4096
  used 2, live 2, free 0, waste 0
",
};

/// A chunk smaller than a granule is committed whole.
const SMALL_FRONT: Row = Row {
    trace: "new 1 reflection
alloc 1 1 26
",
    wanted: "Ok; granules 0; roots; free 0 and 0
At(0); granules 1; roots 0 1; free 1 and 0
loader 1
  at 0 of level 11, front 256
  used 26, live 26, free 0, waste 0
",
};

#[test]
fn blocks_lie_where_they_were_worked_to_lie(rt: HostRuntime) {
    expect_worked(
        &rt,
        Settings::DEFAULT,
        &[
            FIRST,
            TWO_LOADERS,
            ENLARGED,
            RETIRED,
            SALVAGED,
            LARGE_AND_SMALL,
            ROOT_CHUNK,
            LARGEST,
            SMALLER_COMES_FIRST,
            SMALL_FRONT,
        ],
    );
}

/// Ten freed words serve two blocks, which read 0, and one word is waste.
const WORD_OF_WASTE: Row = Row {
    trace: "new 1 standard
alloc 1 1 10
write 1 1 0 7
free 1 1
alloc 1 2 4
alloc 1 3 5
read 1 2 0
",
    wanted: "Ok; granules 0; roots; free 0 and 0
At(0); granules 1; roots 0 1; free 1 and 0
Ok; granules 1; roots 0 1; free 1 and 0
Ok; granules 1; roots 0 1; free 1 and 0
At(0); granules 1; roots 0 1; free 1 and 0
At(4); granules 1; roots 0 1; free 1 and 0
Value(0); granules 1; roots 0 1; free 1 and 0
loader 1
  at 0 of level 10, front 512
  used 10, live 9, free 0, waste 1
",
};

/// A shorter block in the place of a longer one reads 0.
const SHORTER_BLOCK: Row = Row {
    trace: "new 1 standard
alloc 1 1 200
write 1 1 150 9
free 1 1
alloc 1 2 160
read 1 2 150
",
    wanted: "Ok; granules 0; roots; free 0 and 0
At(0); granules 1; roots 0 1; free 1 and 0
Ok; granules 1; roots 0 1; free 1 and 0
Ok; granules 1; roots 0 1; free 1 and 0
At(0); granules 1; roots 0 1; free 1 and 0
Value(0); granules 1; roots 0 1; free 1 and 0
loader 1
  at 0 of level 10, front 512
  used 200, live 160, free 40, waste 0
",
};

/// The rest of a free block stays one.
const REST: Row = Row {
    trace: "new 1 standard
alloc 1 1 4
free 1 1
alloc 1 2 2
alloc 1 3 2
",
    wanted: "Ok; granules 0; roots; free 0 and 0
At(0); granules 1; roots 0 1; free 1 and 0
Ok; granules 1; roots 0 1; free 1 and 0
At(0); granules 1; roots 0 1; free 1 and 0
At(2); granules 1; roots 0 1; free 1 and 0
loader 1
  at 0 of level 10, front 512
  used 4, live 4, free 0, waste 0
",
};

#[test]
fn free_blocks_serve_where_they_fit(rt: HostRuntime) {
    expect_worked(
        &rt,
        Settings::DEFAULT,
        &[WORD_OF_WASTE, SHORTER_BLOCK, REST],
    );
}

/// A freed block is no block.
const FREED_NAME: Row = Row {
    trace: "new 1 standard
alloc 1 1 3
read 1 1 3
free 1 1
free 1 1
read 1 1 0
",
    wanted: "Ok; granules 0; roots; free 0 and 0
At(0); granules 1; roots 0 1; free 1 and 0
Refused(OutOfRange { words: 3 }); granules 1; roots 0 1; free 1 and 0
Ok; granules 1; roots 0 1; free 1 and 0
Refused(NoBlock); granules 1; roots 0 1; free 1 and 0
Refused(NoBlock); granules 1; roots 0 1; free 1 and 0
loader 1
  at 0 of level 10, front 512
  used 3, live 0, free 3, waste 0
",
};

/// Names are taken, refused and used anew.
const NAMES: Row = Row {
    trace: "new 1 standard
new 1 boot
alloc 1 1 1
alloc 1 1 5
read 1 1 1
unload 1
read 1 1 0
new 1 boot
read 1 1 0
",
    wanted: "Ok; granules 0; roots; free 0 and 0
Refused(LoaderExists); granules 0; roots; free 0 and 0
At(0); granules 1; roots 0 1; free 1 and 0
Refused(BlockExists); granules 1; roots 0 1; free 1 and 0
Value(0); granules 1; roots 0 1; free 1 and 0
Ok; granules 0; roots 0 1; free 2 and 0
Refused(NoLoader); granules 0; roots 0 1; free 2 and 0
Ok; granules 0; roots 0 1; free 2 and 0
Refused(NoBlock); granules 0; roots 0 1; free 2 and 0
loader 1
",
};

/// A used name is refused before the words are looked at.
const NAME_BEFORE_WORDS: Row = Row {
    trace: "new 1 standard
alloc 1 1 10
alloc 1 1 0
",
    wanted: "Ok; granules 0; roots; free 0 and 0
At(0); granules 1; roots 0 1; free 1 and 0
Refused(BlockExists); granules 1; roots 0 1; free 1 and 0
loader 1
  at 0 of level 10, front 512
  used 10, live 10, free 0, waste 0
",
};

#[test]
fn names_are_refused_in_order(rt: HostRuntime) {
    expect_worked(
        &rt,
        Settings::DEFAULT,
        &[FREED_NAME, NAMES, NAME_BEFORE_WORDS],
    );
}
