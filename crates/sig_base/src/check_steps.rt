//! Refusals as readers make them: each check refuses, or lets the next one judge.

ghost use Rattle.std.specs.Prelude.{◌≡◌, IfErr};
ghost use Rattle.sig_base.specs.Judged.{Judged, must, refusal};

use crate::code::Code;
use crate::refusal::{Detail, Fault, Place, Refusal};

/// The refusal with this code at this place, without a detail.
pub fn refused(code: Code, place: Place) -> Fault
    ensures { result ≡ Fault.Refused (refusal code place) }
{
    Fault::Refused(Refusal {
        code,
        place,
        detail: Detail::None,
    })
}

/// Refuses with this code at this place, unless the condition holds.
pub fn must(code: Code, place: Place, holds: bool) -> Result<(), Fault>
    ensures judged { Judged (λ done. Unit {0}) (must code place holds) result }
    ensures no_memory { IfErr result (λ e. e ≡ Fault.Refused (refusal code place)) }
{
    if holds {
        return Ok(());
    }
    Err(refused(code, place))
}
