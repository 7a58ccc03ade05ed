//! Items of detections: fields with the tests of their values.

use crate::test::Tests;
use modifier_words::Joined;
use sig_base::{Place, Sequence, Texts};

/// The values of an item, each as the tests of which one has to hold; contracts see a list of lists.
pub type Values = Sequence<Tests>;

/// What an item asks about: some one of these fields, or as a keyword each field that keywords search.
#[derive(Drop, Debug)]
pub enum Fields {
    Keyword,
    Names(Texts),
}

/// An item: its fields, its values, whether all of them have to be satisfied, and the place of its key, or of the
/// scalar itself where a keyword has no key.
#[derive(Drop, Debug)]
pub struct Item {
    pub fields: Fields,
    pub tests: Values,
    pub joined: Joined,
    pub place: Place,
}
