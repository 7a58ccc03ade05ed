//! Steps of pipelines.

use rule_detections::Alternative;
use rule_head::LogSource;
use sig_base::{Place, Sequence, Text, Texts};

/// A text, and what takes its place.
#[derive(Drop, Debug)]
pub struct Pair {
    pub from: Text,
    pub to: Texts,
}

/// Which placeholders a step fills.
#[derive(Drop, Debug)]
pub enum Choice {
    Every,
    Include(Texts),
    Exclude(Texts),
}

/// A condition on the name of a field. A keyword, which has none, meets `Exclude` alone.
#[derive(Drop, Debug)]
pub enum FieldCond {
    Include(Texts),
    Exclude(Texts),
}

/// What a step does. `Add` has items that all have to hold, or with `negated` not all of them.
#[derive(Drop, Debug)]
pub enum Action {
    MapNames(Sequence<Pair>),
    Prefix(Text),
    Suffix(Text),
    MapPrefixes(Sequence<Pair>),
    Drop,
    Add { items: Alternative, negated: bool },
    Source(LogSource),
    MapTexts(Sequence<Pair>),
    FillHoles(Choice),
    WildHoles(Choice),
    FailRule(Text),
    FailItem(Text),
}

/// A step acts on the rules of which its conditions on log sources hold, and there on the names of which its conditions
/// on fields hold: all of them, or with `rule_any` and `field_any` some one of them.
#[derive(Drop, Debug)]
pub struct Step {
    pub id: Option<Text>,
    pub action: Action,
    pub rule_conds: Sequence<LogSource>,
    pub rule_any: bool,
    pub field_conds: Sequence<FieldCond>,
    pub field_any: bool,
    pub place: Place,
}
