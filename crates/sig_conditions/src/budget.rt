//! What is left of a bound.

ghost use Rattle.std.specs.Prelude.{◌≡◌, ◌<◌, ◌+◌, ◌*◌, IfOk, IfErr};

use crate::unresolved::Unresolved;

/// What is left of a bound behind so much. Where too little is left, want of memory is answered.
pub fn pay(left: usize, cost: usize) -> Result<usize, Unresolved>
    ensures paid { IfOk result (λ rest. rest + cost ≡ left) }
    ensures short { IfErr result (λ e. left < cost) }
    ensures err { IfErr result (λ e. e ≡ Unresolved.Memory) }
{
    if cost > left {
        return Err(Unresolved::Memory);
    }
    Ok(left - cost)
}

/// What is left of a bound behind a product. Where too little is left, want of memory is answered.
pub fn pay_product(left: usize, first: usize, second: usize) -> Result<usize, Unresolved>
    ensures paid { IfOk result (λ rest. rest + first * second ≡ left) }
    ensures short { IfErr result (λ e. left < first * second) }
    ensures err { IfErr result (λ e. e ≡ Unresolved.Memory) }
{
    let Some(cost) = first.checked_mul(second) else {
        return Err(Unresolved::Memory);
    };
    pay(left, cost)
}
