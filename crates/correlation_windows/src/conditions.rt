//! Conditions on numbers.

ghost use Rattle.std.specs.Prelude.{◌≡◌};
ghost use Rattle.correlation_windows.specs.Windows.{compares, meets};

use crate::bound::Op;

fn compares(op: Op, number: u64, bound: u64) -> bool
    ensures { result ≡ compares op number bound }
{
    match op {
        Op::Lt => number < bound,
        Op::Lte => number <= bound,
        Op::Gt => number > bound,
        Op::Gte => number >= bound,
        Op::Eq => number == bound,
    }
}

/// Whether a number meets all of these tests.
pub(crate) fn meets(tests: &[(Op, u64)], number: u64) -> bool
    ensures { result ≡ meets tests.now number }
{
    tests.iter().all(|test| compares(test.0, number, test.1))
}
