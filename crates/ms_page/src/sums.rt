//! Sums over what nothing bounds. No metaspace has so many words that 64 bits don't hold them; a
//! sum that they don't hold counts as the greatest number that they do.
ghost use Rattle.std.specs.Prelude.{◌≡◌, ◌+◌};
ghost use Rattle.ms_page.specs.Sums.{capped};

/// Adds two numbers, as far as 64 bits hold the sum.
pub(crate) fn add(one: u64, other: u64) -> u64
    ensures { result ≡ capped (one + other) }
{
    one.saturating_add(other)
}
