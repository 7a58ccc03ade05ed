//! Regular expressions in documents.

use sig_base::{Place, Sequence, Text};

/// A regular expression, with the flags that it is read with in front, and the place of its value.
#[derive(Drop, Debug)]
pub struct Expression {
    pub place: Place,
    pub text: Text,
}

/// Regular expressions in their order, which contracts see as a list.
pub type Expressions = Sequence<Expression>;
