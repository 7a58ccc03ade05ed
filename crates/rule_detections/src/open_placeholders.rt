//! Whether the placeholders of tests are filled.

ghost use Rattle.std.specs.Prelude.{◌≡◌};
ghost use Rattle.std.specs.List.{list_all};
ghost use Rattle.rule_detections.specs.PlainTests.{is_filled_test};
ghost use Rattle.modifier_values.specs.PlainPatterns as patterns;

use crate::test::Test;
use sig_strings::Part;

fn is_filled(part: &Part) -> bool
    ensures { result ≡ patterns.is_filled part.now }
{
    match part {
        Part::Hole(_) => false,
        Part::Char(_) | Part::One | Part::Run | Part::Dash => true,
    }
}

fn are_filled(parts: &[Part]) -> bool
    ensures { result ≡ list_all patterns.is_filled parts.now }
{
    parts.iter().all(is_filled)
}

impl Test {
    /// Whether the test has no placeholder that a pipeline would have to fill; takes no memory.
    pub fn is_filled(&self) -> bool
        ensures { result ≡ is_filled_test self.now }
    {
        match self {
            Test::Fits { pattern, .. } => are_filled(pattern.parts()),
            Test::Absent
            | Test::Exists(_)
            | Test::Equals(_)
            | Test::Inside(_)
            | Test::Compare { .. }
            | Test::SameAs(_)
            | Test::Finds { .. } => true,
        }
    }
}
