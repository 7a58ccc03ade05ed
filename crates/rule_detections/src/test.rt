//! Tests of a field's values.

use modifier_words::{Flags, Op};
use sig_base::{Sequence, Text};
use sig_encode::Network;
use sig_strings::SharedPattern;

/// What a rule asks of the values of a field.
#[derive(Drop, Debug)]
pub enum Test {
    /// the field has no value
    Absent,
    /// the field has a value where `true`, and none where `false`
    Exists(bool),
    /// some value's text, or a number's decimal, fits the pattern, read exactly where `cased`, else without regard to the case
    /// of A to Z
    Fits { pattern: SharedPattern, cased: bool },
    /// some value's text is the decimal of this number, or the value is this number
    Equals(i64),
    /// some value's text is an address of the network
    Inside(Network),
    /// some value is a whole number that stands so to this one, which isn't -2^63
    Compare { op: Op, number: i64 },
    /// some value's text is that of some value of the field of this name, without regard to the case of A to Z; a number's
    /// text is its decimal
    SameAs(Text),
    /// the regular expression of this text, read with these flags, has a match somewhere in some value's text, or in a number's
    /// decimal
    Finds { text: Text, flags: Flags },
}

/// Tests in order, which contracts see as a list.
pub type Tests = Sequence<Test>;
