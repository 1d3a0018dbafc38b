//! Tests of the library's public calls. They say what no clause does.
//!
//! They stand in a crate of their own because a crate with tests is proved twice.
#![tactic(auto)]

#[cfg(test)]
mod tests;
