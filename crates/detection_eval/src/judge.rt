//! Judges: rules that are ready, with the memory that events are judged with.

ghost use Rattle.std.specs.Prelude.{◌≡◌, length, map};

use crate::finders::Finders;
use crate::ready::Ready;

/// Judges events by a rule that is ready: it has the memory that searches with the rule's regular expressions take, and room for the
/// truth of each detection.
#[derive(Drop)]
pub struct Judge<'r> {
    pub(crate) ready: &'r Ready,
    pub(crate) finders: Finders<'r>,
    pub(crate) truths: Vec<bool>,
    pub(crate) ghost searches: { finders ≡ map (λ search. search.text) ready.now.searches.items },
    pub(crate) ghost many: { length truths.items ≡ length ready.now.detections.items },
}
