//! The axes of a chart: a step that a person reads easily, and how many of them.
//!
//!     words     1024, 2048, 4096 ..           five steps reach the greatest number at least
//!     a count   1, 2, 5, 10, 20, 50 ..
ghost use Rattle.std.specs.Prelude.{◌≡◌, ◌≤◌, ◌*◌, ◌<◌, ◌^◌};
ghost use Rattle.ms_page.specs.Axis.{IsCountStep, IsDecade, IsWordStep, steps};

/// The least step of an axis of words.
const LEAST_WORDS: u64 = 1024;

/// The most steps of an axis.
const MOST_STEPS: u64 = 5;

/// An axis from 0 to `step * steps`. This project's choice.
#[derive(Clone, Copy, Debug, PartialEq, Eq)]
pub struct Axis {
    /// What lies between two ticks: words, or a count.
    pub step: u64,
    /// How many steps there are, 1 to 5.
    pub steps: u64,
}

/// Returns the step of an axis of words: the least power of two, 1024 or more, of which five reach
/// a number of words, at most 2^56.
pub fn word_step(words: u64) -> u64
    requires { words ≤ 72057594037927936 }
    ensures { IsWordStep words result }
{
    let mut step = LEAST_WORDS;
    while MOST_STEPS * step < words {
        step *= 2;
    }
    step
}

/// Returns the axis of a number of words, at most 2^56.
pub fn word_axis(words: u64) -> Axis
    requires { words ≤ 72057594037927936 }
    ensures step { IsWordStep words result.step }
    ensures steps { result.steps ≡ steps words result.step }
    ensures small { result.step * result.steps < 2 ^ 58 }
{
    let step = word_step(words);
    Axis {
        step,
        steps: steps(words, step),
    }
}

/// Returns the axis of a count: its step is the least of 1, 2, 5, 10, 20, 50 and so on of which
/// five reach the count.
pub fn count_axis(count: u64) -> Axis
    ensures step { IsCountStep count result.step }
    ensures steps { result.steps ≡ steps count result.step }
    ensures small { count ≤ 2 ^ 56 → result.step * result.steps < 2 ^ 58 }
{
    let step = count_step(count);
    Axis {
        step,
        steps: steps(count, step),
    }
}

/// Returns the step of an axis of a count.
fn count_step(count: u64) -> u64
    ensures step { IsCountStep count result }
    ensures some { 0 < result }
{
    let whole = u128::from(count);
    in_decade(decade(whole), whole) as u64
}

/// Returns the step of a count, by its decade.
fn in_decade(decade: u128, count: u128) -> u128
    requires decade { IsDecade count decade }
    requires small { decade ≤ 2 ^ 65 }
    ensures { IsCountStep count result }
{
    if 5 * decade >= count {
        return decade;
    }
    if 10 * decade >= count {
        return 2 * decade;
    }
    5 * decade
}

/// Returns the least power of ten of which twenty-five reach a count.
fn decade(count: u128) -> u128
    requires { count < 2 ^ 64 }
    ensures decade { IsDecade count result }
    ensures small { result ≤ 2 ^ 65 }
{
    let mut decade = 1;
    while 25 * decade < count {
        decade *= 10;
    }
    decade
}

/// Returns how many steps reach a number, one at least.
pub fn steps(number: u64, step: u64) -> u64
    requires { 0 < step }
    ensures { result ≡ steps number step }
{
    number.div_ceil(step).max(1)
}
