//! Correlations, as documents tell them.

use correlation_windows::{CorrelationKind, Op};
use rule_head::Head;
use sig_base::{Place, Sequence, Text, Texts};

/// The field that an alias stands for with the matches of a rule.
#[derive(Drop, Debug)]
pub struct AliasField {
    pub rule: Text,
    pub field: Text,
}

/// A name that stands for a field of each rule.
#[derive(Drop, Debug)]
pub struct Alias {
    pub name: Text,
    pub fields: Sequence<AliasField>,
}

/// A correlation. `rules` has names or identifiers of rules, `group_by` has names of fields or aliases, `span` is in
/// nanoseconds, all of `condition` has to hold, and `place` is that of the document.
#[derive(Drop, Debug)]
pub struct Correlation {
    pub head: Head,
    pub kind: CorrelationKind,
    pub rules: Texts,
    pub group_by: Texts,
    pub span: i128,
    pub condition: Sequence<(Op, u64)>,
    pub counted: Option<Text>,
    pub aliases: Sequence<Alias>,
    pub place: Place,
}
