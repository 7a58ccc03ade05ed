//! Items of detections whose names and regular expressions are numbers.

use modifier_words::Joined;
use rule_detections::Test;
use sig_base::Sequence;

/// The numbers of an item's fields; none for a name that no field has.
pub type FieldPlaces = Sequence<Option<u32>>;

/// What an item asks about: each field that keywords search, or some one of the fields of these numbers.
#[derive(Drop)]
pub enum Asked {
    Searched,
    Numbers(FieldPlaces),
}

/// A test, with the number of the field that it compares with, none where it compares with none or no field has the name; and with
/// the number of the regular expression that it searches for, if it searches for one.
#[derive(Drop)]
pub struct NumberedTest {
    pub test: Test,
    pub other: Option<u32>,
    pub search: Option<u32>,
}

/// The tests of a value, of which one has to hold, which contracts see as a list.
pub type NumberedTests = Sequence<NumberedTest>;

/// The tests of each value of an item, which contracts see as a list of lists.
pub type NumberedValues = Sequence<NumberedTests>;

/// An item: its fields, whether all of its values have to be satisfied, and its values.
#[derive(Drop)]
pub struct NumberedItem {
    pub asked: Asked,
    pub joined: Joined,
    pub tests: NumberedValues,
}

/// Items that all have to hold, which contracts see as a list.
pub type NumberedAlternative = Sequence<NumberedItem>;

/// Alternatives of which one has to hold, which contracts see as a list of lists.
pub type NumberedDetection = Sequence<NumberedAlternative>;
