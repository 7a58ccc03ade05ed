//! Detections: alternatives of items.

use crate::item::Item;
use sig_base::{Place, Sequence, Text};

/// Items that all have to hold, which contracts see as a list.
pub type Alternative = Sequence<Item>;

/// Alternatives of which one has to hold, which contracts see as a list of lists.
pub type Alternatives = Sequence<Alternative>;

/// A detection: its name, its alternatives, and the place of its key.
#[derive(Drop, Debug)]
pub struct Detection {
    pub name: Text,
    pub alternatives: Alternatives,
    pub place: Place,
}

/// The detections of a rule in its order, which contracts see as a list.
pub type Detections = Sequence<Detection>;
