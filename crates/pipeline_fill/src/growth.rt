//! How large a rule becomes, counted up to 2^127 - 1 before anything is made.

ghost use Rattle.std.specs.Prelude.{◌≡◌, ◌+◌, ◌*◌, max};
ghost use Rattle.pipeline_fill.specs.Counts.{capped};

/// The greatest number that is counted.
const MOST: u128 = i128::MAX as u128;

/// How many tests take the place of some, how many parts their longest pattern has and all patterns together, and whether a
/// placeholder that is chosen has no variable.
#[derive(Clone, Copy)]
pub struct Growth {
    pub tests: u128,
    pub longest: u128,
    pub extent: u128,
    pub lacking: bool,
}

/// How many names and tests some items have, and how many parts their longest pattern has and all patterns together.
#[derive(Clone, Copy)]
pub struct Size {
    pub names: u128,
    pub tests: u128,
    pub longest: u128,
    pub extent: u128,
}

pub fn add(count: u128, more: u128) -> u128
    ensures { result ≡ capped (count + more) }
{
    count.saturating_add(more).min(MOST)
}

pub fn times(count: u128, more: u128) -> u128
    ensures { result ≡ capped (count * more) }
{
    count.saturating_mul(more).min(MOST)
}

pub fn larger(one: u128, other: u128) -> u128
    ensures { result ≡ max one other }
{
    one.max(other)
}
