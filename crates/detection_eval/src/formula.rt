//! The values of formulas, where the truth of each detection is known.

ghost use Rattle.std.specs.Prelude.{◌≡◌};
ghost use Rattle.sig_conditions.specs.Formulas.{form_view, forms_of, forms_view, numbered, value, all_true, some_true};
ghost use Rattle.detection_eval.specs.Truths.{truth_at};

use sig_conditions::Formula;

/// Whether the detection of this number is true.
fn is_detection_true(truths: &[bool], number: u32) -> bool
    ensures { result ≡ truth_at truths.now number }
{
    let number = number as usize;
    if number >= truths.len() {
        return false;
    }
    truths[number]
}

fn are_detections_true(truths: &[bool], numbers: &[u32]) -> bool
    ensures { result ≡ all_true (truth_at truths.now) (forms_of (numbered numbers.now)) }
{
    for number in numbers {
        if !is_detection_true(truths, *number) {
            return false;
        }
    }
    true
}

fn is_some_detection_true(truths: &[bool], numbers: &[u32]) -> bool
    ensures { result ≡ some_true (truth_at truths.now) (forms_of (numbered numbers.now)) }
{
    for number in numbers {
        if is_detection_true(truths, *number) {
            return true;
        }
    }
    false
}

#[cycle(formulas)]
fn is_true(formula: &Formula, truths: &[bool]) -> bool
    ensures { result ≡ value (truth_at truths.now) (form_view formula.now) }
{
    match formula {
        Formula::Detection(number) => is_detection_true(truths, *number),
        Formula::OneOf(numbers) => is_some_detection_true(truths, numbers.as_slice()),
        Formula::AllOf(numbers) => are_detections_true(truths, numbers.as_slice()),
        Formula::Not(part) => !is_true(part, truths),
        Formula::And(parts) => are_all_true(parts, truths),
        Formula::Or(parts) => is_some_true(parts, truths),
    }
}

#[cycle(formulas)]
fn are_all_true(parts: &[Formula], truths: &[bool]) -> bool
    ensures { result ≡ all_true (truth_at truths.now) (forms_of (forms_view parts.now)) }
{
    for part in parts {
        if !is_true(part, truths) {
            return false;
        }
    }
    true
}

/// Whether some one of these formulas is true.
#[cycle(formulas)]
pub fn is_some_true(parts: &[Formula], truths: &[bool]) -> bool
    ensures { result ≡ some_true (truth_at truths.now) (forms_of (forms_view parts.now)) }
{
    for part in parts {
        if is_true(part, truths) {
            return true;
        }
    }
    false
}
