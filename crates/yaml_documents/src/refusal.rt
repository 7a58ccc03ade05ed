//! What a whole file is refused for.

ghost use Rattle.std.specs.Prelude.{◌≡◌};
ghost use Rattle.yaml_tree.specs.View.{place_view};
ghost use Rattle.yaml_documents.specs.Views.{IfRefused};

use sig_base::{Code, Detail, Fault, Place, Refusal};

/// The refusal of a whole file.
pub fn refused(code: Code, place: Place) -> Fault
    ensures { IfRefused result (λ p. p ≡ (code, place_view place)) }
{
    Fault::Refused(Refusal {
        code,
        place,
        detail: Detail::None,
    })
}
