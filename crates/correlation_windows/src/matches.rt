//! Matches of events.

use sig_base::Text;

/// An event's match with a listed rule: the event's line and its moment in nanoseconds, the rule's place in the list,
/// and the text that `value_count` counts.
#[derive(Drop, Debug)]
pub struct Match {
    pub line: u32,
    pub moment: i128,
    pub place: u32,
    pub counted: Option<Text>,
}
