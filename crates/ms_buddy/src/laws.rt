//! Laws about the definitions: what they amount to, each the contract of a function that does
//! nothing.
ghost use Rattle.ms_buddy.specs.Laws.{NoneLentIsWhole};

/// With no leaf lent the root is one free leaf.
pub fn none_lent_is_whole()
    ensures { NoneLentIsWhole }
{}
