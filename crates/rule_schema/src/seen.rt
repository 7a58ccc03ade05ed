//! What the fields of some names are.

ghost use Rattle.std.specs.Prelude.{◌≡◌, ◌∷◌, [], ◌&&◌};
ghost use Rattle.schema_index.specs.Numbered.{AreNumbered};
ghost use Rattle.rule_schema.specs.Asked.{asks_view};
ghost use Rattle.rule_schema.specs.Compared.{test_names, value_names, values_names};
ghost use Rattle.rule_schema.specs.Looked as spec;

use crate::kinds::Asked;
use event_schema::{Field, FieldKind};
use rule_detections::{Test, Tests};
use schema_index::FieldNumbers;
use sig_base::Text;

/// Whether there is a name, and whether all names have a field, one of whole numbers, none of whole numbers, one of addresses.
#[derive(Clone, Copy)]
pub struct Seen {
    some: bool,
    known: bool,
    whole: bool,
    other: bool,
    address: bool,
}

/// The kind of the first field of this name, which is compared with each.
fn kind_among(fields: &[Field], name: &Text) -> Option<FieldKind>
    ensures { result ≡ spec.kind_in fields.now name.now }
{
    for field in fields {
        if field.name.equals(name) {
            return Some(field.kind);
        }
    }
    None
}

/// The kind of the first field of this name among those that are numbered.
#[tactic(auto, using(crate::proofs::Looking::number_kind, crate::proofs::Looking::no_number))]
fn kind_numbered(fields: &[Field], numbers: &FieldNumbers, name: &Text) -> Option<FieldKind>
    requires { AreNumbered fields.now numbers.now }
    ensures { result ≡ spec.kind_in fields.now name.now }
{
    match numbers.look_up(fields, name) {
        Some(number) => Some(fields[number as usize].kind),
        None => None,
    }
}

fn kind_of(fields: &[Field], numbers: &Option<FieldNumbers>, name: &Text) -> Option<FieldKind>
    requires { spec.AreNumberedIfAny fields.now numbers.now }
    ensures { result ≡ spec.kind_in fields.now name.now }
{
    match numbers {
        Some(numbers) => kind_numbered(fields, numbers, name),
        None => kind_among(fields, name),
    }
}

impl Seen {
    /// No name.
    fn none() -> Seen
        ensures { result ≡ spec.nothing_seen }
    {
        Seen {
            some: false,
            known: true,
            whole: true,
            other: true,
            address: true,
        }
    }

    /// One name whose field has this kind, or that has none.
    fn of_kind(kind: Option<FieldKind>) -> Seen
        ensures { result ≡ spec.seen_kind kind }
    {
        match kind {
            None => Seen {
                some: true,
                known: false,
                whole: false,
                other: true,
                address: false,
            },
            Some(kind) => Seen {
                some: true,
                known: true,
                whole: matches!(kind, FieldKind::Whole),
                other: !matches!(kind, FieldKind::Whole),
                address: matches!(kind, FieldKind::Address),
            },
        }
    }

    /// These names and those.
    fn and(self, other: Seen) -> Seen
        ensures { result ≡ spec.both self other }
    {
        Seen {
            some: self.some | other.some,
            known: self.known & other.known,
            whole: self.whole & other.whole,
            other: self.other & other.other,
            address: self.address & other.address,
        }
    }

    /// These names and one more.
    #[tactic(auto, using(crate::proofs::Looking::one_seen))]
    fn look(self, fields: &[Field], numbers: &Option<FieldNumbers>, name: &Text) -> Seen
        requires { spec.AreNumberedIfAny fields.now numbers.now }
        ensures { result ≡ spec.both self (spec.seen_of fields.now (name.now ∷ [])) }
    {
        self.and(Seen::of_kind(kind_of(fields, numbers, name)))
    }

    /// These names and the one that a test compares with.
    #[tactic(auto, using(crate::proofs::Looking::some_named, crate::proofs::Looking::none_named))]
    fn look_at(self, fields: &[Field], numbers: &Option<FieldNumbers>, test: &Test) -> Seen
        requires { spec.AreNumberedIfAny fields.now numbers.now }
        ensures { result ≡ spec.both self (spec.seen_of fields.now (test_names test.now)) }
    {
        match test.reference() {
            Some(name) => self.look(fields, numbers, name),
            None => self,
        }
    }

    #[tactic(auto, using(crate::proofs::Looking::next_seen))]
    fn look_through(self, fields: &[Field], numbers: &Option<FieldNumbers>, tests: &[Test]) -> Seen
        requires { spec.AreNumberedIfAny fields.now numbers.now }
        ensures { result ≡ spec.both self (spec.seen_of fields.now (value_names tests.now)) }
    {
        let mut seen = self;
        for test in tests {
            seen = seen.look_at(fields, numbers, test);
        }
        seen
    }

    /// Whether all these names and those have fields.
    pub fn are_known(self, others: Seen) -> bool
        ensures { result ≡ (self.known && others.known) }
    {
        self.known & others.known
    }

    /// Whether the fields of these names are what is asked, and suit those of the others that they are compared with.
    pub fn suits(self, others: Seen, asked: Asked) -> bool
        ensures { result ≡ spec.suits (asks_view asked) self others }
    {
        (!asked.whole || self.whole)
            && (!asked.address || self.address)
            && (!others.some || self.whole && others.whole || self.other && others.other)
    }
}

/// What the fields of names are.
#[tactic(auto, using(crate::proofs::Looking::next_name))]
pub fn look_names(fields: &[Field], numbers: &Option<FieldNumbers>, names: &[Text]) -> Seen
    requires { spec.AreNumberedIfAny fields.now numbers.now }
    ensures { result ≡ spec.seen_of fields.now names.now }
{
    let mut seen = Seen::none();
    for name in names {
        seen = seen.look(fields, numbers, name);
    }
    seen
}

/// What the fields are with which the tests of these values compare.
#[tactic(auto, using(crate::proofs::Looking::next_seen))]
pub fn look_references(fields: &[Field], numbers: &Option<FieldNumbers>, values: &[Tests]) -> Seen
    requires { spec.AreNumberedIfAny fields.now numbers.now }
    ensures { result ≡ spec.seen_of fields.now (values_names values.now) }
{
    let mut seen = Seen::none();
    for tests in values {
        seen = seen.look_through(fields, numbers, tests.as_slice());
    }
    seen
}
