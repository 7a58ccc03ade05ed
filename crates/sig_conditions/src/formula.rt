//! A condition over the numbers of a rule's detections.

use crate::numbers::DetectionNumbers;

/// A condition whose names are looked up: a detection is its number in the rule, from 0.
#[derive(Drop)]
pub enum Formula {
    /// The detection of this number.
    Detection(u32),
    /// True where some detection of these numbers is.
    OneOf(DetectionNumbers),
    /// True where each detection of these numbers is.
    AllOf(DetectionNumbers),
    /// True where the part isn't.
    Not(Box<Formula>),
    /// True where all parts are.
    And(Vec<Formula>),
    /// True where some part is.
    Or(Vec<Formula>),
}
