//! Events as they come.

use event_schema::Event;

/// An event that comes next: the number of its line, its moment in nanoseconds, and whether it matches each rule.
#[derive(Drop)]
pub struct Arrival<'h, 'e> {
    pub line: u32,
    pub moment: i128,
    pub hits: &'h [bool],
    pub event: &'e Event,
}
