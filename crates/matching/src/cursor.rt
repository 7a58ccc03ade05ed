ghost use Rattle.std.specs.Prelude.{ℕ, List};
ghost use Rattle.matching.specs.Steps.{StepTells};

use crate::step::Step;

/// A pattern that is read from its front. What it matches is its own definition, `holds`; a step says what
/// that definition comes to at the front, and leaves less of the pattern.
pub trait Cursor: Copy {
    ghost holds: { Self → List ℕ → Type 0 };

    ghost left: { Self → ℕ };

    fn step(self) -> Step<Self>
        ensures { StepTells holds left self result };
}
