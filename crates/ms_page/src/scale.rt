//! Numbers as lengths.
ghost use Rattle.std.specs.Prelude.{◌≡◌};
ghost use Rattle.ms_page.specs.Scale.{scaled};

/// Returns the length that a number has on a track which stands for a whole, rounded up, and at
/// most the track's own length; 0 where there is no whole. Number and whole are in the same unit.
pub fn scaled(number: u64, whole: u64, length: u64) -> u64
    ensures { result ≡ scaled number whole length }
{
    if whole == 0 {
        return 0;
    }
    let exact = (u128::from(number) * u128::from(length)).div_ceil(u128::from(whole));
    exact.min(u128::from(length)) as u64
}
