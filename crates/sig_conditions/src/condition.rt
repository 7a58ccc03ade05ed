//! A condition as it stands in a rule.

use crate::selector::Selector;
use sig_base::Text;

/// A condition of a rule, before its names are looked up.
#[derive(Drop)]
pub enum Condition {
    /// The detection of this name.
    Name(Text),
    /// `1 of` or `any of`.
    OneOf(Selector),
    /// `all of`.
    AllOf(Selector),
    /// `not`.
    Not(Box<Condition>),
    /// Two or more parts with `and` between.
    And(Vec<Condition>),
    /// Two or more parts with `or` between.
    Or(Vec<Condition>),
}
