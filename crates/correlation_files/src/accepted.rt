//! What is made of a document that isn't refused.

use correlation_read::Correlation;
use detection_eval::Ready;
use rule_head::Head;
use rule_model::Rule;

/// A rule made ready for a schema, and a head by whose name and identifier correlations mean it.
#[derive(Drop)]
pub(crate) struct ReadyRule {
    pub(crate) rule: Rule,
    pub(crate) ready: Ready,
    pub(crate) head: Head,
}

/// A rule that is run, or a correlation.
#[derive(Drop)]
pub(crate) enum Accepted {
    Rule(ReadyRule),
    Correlation(Correlation),
}
