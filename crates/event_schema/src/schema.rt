//! Schemas: the fields that events have, and where their times stand.

ghost use Rattle.std.specs.Prelude.{◌≡◌};
ghost use Rattle.std.specs.Str.{chars};
ghost use Rattle.event_schema.specs.Rows.{field_number};

use crate::fields::FieldList;
use sig_base::{Text, Texts};

/// What values a field takes: texts, whole numbers of 64 bits, or texts that are an IPv4 address or don't begin like one.
#[derive(Clone, Copy, Debug, PartialEq, Eq)]
pub enum FieldKind {
    Text,
    Whole,
    Address,
}

/// A field: its name, its kind, the keys that lead to its value in an event, whether keywords search it, whether a Lucene
/// index keeps its case in a twin, and whether an event may have several values of it.
#[derive(Drop, Debug)]
pub struct Field {
    pub name: Text,
    pub kind: FieldKind,
    pub at: Texts,
    pub search: bool,
    pub cased: bool,
    pub many: bool,
}

/// How an event's time is written.
#[derive(Clone, Copy, Debug, PartialEq, Eq)]
pub enum TimeForm {
    Text,
    Seconds,
    Millis,
}

/// Where an event's time stands, and how it's written.
#[derive(Drop, Debug)]
pub struct Time {
    pub at: Texts,
    pub form: TimeForm,
}

/// The table's name, its fields in order, and where an event's time stands.
#[derive(Drop, Debug)]
pub struct Schema {
    pub table: Text,
    pub fields: FieldList,
    pub time: Option<Time>,
}

impl Schema {
    /// The number of the first field that has exactly this name.
    pub fn find(&self, name: &str) -> Option<usize>
        ensures { result ≡ field_number self.now.fields (chars name.now) }
    {
        self.fields
            .as_slice()
            .iter()
            .position(|field| field.name.is(name))
    }
}
