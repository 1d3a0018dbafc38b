//! How many words are in use, and how many of them are live, in each space.

/// The words that are in use and those that are live, in each space: of one loader, or of all. After
/// HotSpot's VM.metaspace, with this project's numbers.
#[derive(Clone, Copy, Debug, PartialEq, Eq)]
pub struct Amounts {
    /// Words in use outside the class space: the sum of the tops.
    pub used: u64,
    /// Words of live blocks outside the class space.
    pub live: u64,
    /// Words in use in the class space.
    pub class_used: u64,
    /// Words of live blocks in the class space.
    pub class_live: u64,
}

impl Amounts {
    /// Those of no loader.
    pub const NONE: Amounts = Amounts {
        used: 0,
        live: 0,
        class_used: 0,
        class_live: 0,
    };
}
