//! What a leaf of a split root chunk is.

/// What a leaf is: free, or lent to an owner with a front, the number of its first words that are
/// committed for the owner. After JEP 387; owners are this project's choice.
#[derive(Clone, Copy, Debug, PartialEq, Eq)]
pub enum Leaf {
    Free,
    Lent { owner: u32, front: u64 },
}
