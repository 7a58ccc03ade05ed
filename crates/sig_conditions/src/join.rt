//! Conditions made of parts.

ghost use Rattle.std.specs.Prelude.{◌≡◌, IfOk, IfErr};
ghost use Rattle.sig_conditions.specs.Conditions.{CNot, conds_of, cond_view, conds_view, joined_and, joined_or};

use crate::condition::Condition;
use crate::stop::Stop;
use std::alloc::Global;

/// A chain of parts with `or` between.
pub fn join_or(first: Condition, mut more: Vec<Condition>) -> Result<Condition, Stop>
    ensures ok { IfOk result (λ c. cond_view c ≡ joined_or (cond_view first) (conds_of (conds_view more.items))) }
    ensures err { IfErr result (λ e. e ≡ Stop.Memory) }
{
    if more.is_empty() {
        return Ok(first);
    }
    more.insert(0, first)?;
    Ok(Condition::Or(more))
}

/// A chain of parts with `and` between.
pub fn join_and(first: Condition, mut more: Vec<Condition>) -> Result<Condition, Stop>
    ensures ok { IfOk result (λ c. cond_view c ≡ joined_and (cond_view first) (conds_of (conds_view more.items))) }
    ensures err { IfErr result (λ e. e ≡ Stop.Memory) }
{
    if more.is_empty() {
        return Ok(first);
    }
    more.insert(0, first)?;
    Ok(Condition::And(more))
}

/// The condition that doesn't hold where the part does.
pub fn negate(alloc: Global, part: Condition) -> Result<Condition, Stop>
    ensures ok { IfOk result (λ c. cond_view c ≡ CNot (cond_view part)) }
    ensures err { IfErr result (λ e. e ≡ Stop.Memory) }
{
    Ok(Condition::Not(Box::new(alloc, part)?))
}
