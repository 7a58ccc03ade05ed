//! The names of a rule's fields, each once in the order of their first appearance, and what is asked of their fields.

ghost use Rattle.std.specs.Prelude.{◌≡◌, ◌<◌, ◌++◌, ◌∷◌, [], true, false, map, length, IfOk, IfErr, OnOk, Some, None};
ghost use Rattle.std.specs.List.{flat_map, position};
ghost use Rattle.std.specs.Str.{bytes_eq, chars};
ghost use Rattle.sig_base.specs.Folding.{folded};
ghost use Rattle.sig_base.specs.Folding.{folded as text_folded};
ghost use Rattle.sig_base.specs.Judged.{Judged, refusal};
ghost use Rattle.rule_schema.specs.Asked.{asks_view};
ghost use Rattle.rule_schema.specs.Gathered.{AreFound, Gathers, differs, folds_to, joined, place_of, use_of, AreMade, texts_of, test_uses, value_uses, alternative_uses, detection_uses};
ghost use Rattle.rule_schema.specs.Inferred as spec;
ghost use Rattle.rule_schema.specs.Inferred.{item_uses};
ghost use Rattle.rule_schema.specs.Kinds.{names_in, opposed};

use crate::kinds::{Asked, asked_by};
use rule_detections::{Alternative, Detection, Fields, Item, Test, Tests};
use sig_base::{Code, Fault, Place, Text, first_char, fold, refused};
use std::alloc::{AllocError, Global};
use std::collections::BTreeMap;

/// So many names are compared one by one; where there may be more, each is found by its folded text.
const FEW: usize = 32;

/// A name, and what is asked of its field.
#[derive(Drop)]
pub struct Named {
    pub name: Text,
    pub asked: Asked,
}

/// Names in the order of their first appearance, and where they are indexed the place of each by its text with a to z in place
/// of A to Z.
#[derive(Drop)]
struct Gathered {
    names: Vec<Named>,
    index: BTreeMap<String, usize>,
    indexed: bool,
}

/// The text with a to z in place of A to Z.
fn folded_text(alloc: Global, text: &Text) -> Result<Text, AllocError>
    ensures { IfOk result (λ t. t ≡ folded text.now) }
{
    let mut left = text.as_str();
    let mut folded = Text::with_capacity(alloc, left.len())?;
    while let Some((c, rest)) = first_char(left) {
        folded.push(fold(c))?;
        left = rest;
    }
    Ok(folded)
}

/// Whether nothing is left of a text.
#[tactic(auto, using(crate::proofs::Gathering::more_left, crate::proofs::Gathering::none_left))]
fn is_end(text: &str) -> bool
    ensures { result ≡ bytes_eq [] (folded (chars text.now)) }
{
    match first_char(text) {
        Some(_) => false,
        None => true,
    }
}

/// Whether two names differ in the case of letters at most.
fn are_alike(name: &str, other: &str) -> bool
    ensures { result ≡ folds_to (folded (chars other.now)) (chars name.now) }
{
    let mut left = name;
    let mut right = other;
    while let Some((c, rest)) = first_char(left) {
        let Some((d, behind)) = first_char(right) else {
            return false;
        };
        if fold(c) != fold(d) {
            return false;
        }
        left = rest;
        right = behind;
    }
    is_end(right)
}

/// Whether a name is this one but for the case of letters.
fn is_alike(other: &Named, name: &Text) -> bool
    ensures { result ≡ folds_to (folded name.now) other.now.name }
{
    are_alike(other.name.as_str(), name.as_str())
}

fn position_alike(names: &[Named], name: &Text) -> Option<usize>
    ensures { result ≡ position (λ n. folds_to (folded name.now) n.name) names.now }
{
    names.iter().position(|other| is_alike(other, name))
}

/// The place of the first name that is this one but for the case of letters.
#[tactic(auto, using(crate::proofs::Gathering::position_place))]
fn find_alike(names: &[Named], name: &Text) -> Option<usize>
    ensures { result ≡ place_of (folded name.now) (texts_of names.now) }
{
    position_alike(names, name)
}

/// The refusal of a use that clashes with another, at its item's place.
fn clash(place: Place) -> Fault
    ensures { result ≡ Fault.Refused (refusal 80 place) }
{
    refused(Code::KIND_CONFLICT, place)
}

impl Named {
    fn of(alloc: Global, name: &Text, asked: Asked) -> Result<Named, Fault>
        ensures ok { IfOk result (λ n. n ≡ record { name = name.now; asked = asked }) }
        ensures err { IfErr result (λ e. e ≡ Fault.Memory) }
    {
        Ok(Named {
            name: Text::copy(alloc, name.as_str())?,
            asked,
        })
    }

    /// Whether a use of this name, by which that is asked, can't be one of this one.
    fn differs(&self, name: &Text, place: Place, asked: Asked) -> bool
        ensures { result ≡ differs self.now (use_of place (asks_view asked) name.now) }
    {
        !self.name.equals(name) || self.asked.opposes(asked)
    }

    /// Asks that of the name's field too.
    fn join(&mut self, asked: Asked)
        ensures { self.new ≡ joined self.old (asks_view asked) }
    {
        self.asked = self.asked.and(asked);
    }
}

impl Gathered {
    fn new(alloc: Global, indexed: bool) -> Gathered
        ensures names { result.names.items ≡ [] }
        ensures kept { AreFound (texts_of result.names.items) result.index result.indexed }
    {
        Gathered {
            names: Vec::new(alloc),
            index: BTreeMap::new(alloc),
            indexed,
        }
    }

    /// The place of the name of this folded text.
    fn find_folded(&self, folded: &Text) -> Option<usize>
        requires found { AreFound (texts_of self.now.names.items) self.now.index self.now.indexed }
        requires indexed { self.now.indexed ≡ true }
        ensures { result ≡ place_of folded.now (texts_of self.now.names.items) }
    {
        match self.index.get(folded.as_str()) {
            Some(place) => Some(*place),
            None => None,
        }
    }

    /// Adds a name that none of the others is.
    fn insert(
        &mut self,
        alloc: Global,
        folded: &Text,
        name: &Text,
        asked: Asked,
    ) -> Result<(), Fault>
        requires found { AreFound (texts_of self.old.names.items) self.old.index self.old.indexed }
        requires fresh { place_of folded.now (texts_of self.old.names.items) ≡ None }
        requires folds { folded.now ≡ text_folded name.now }
        ensures names { OnOk result (self.new.names.items ≡ self.old.names.items ++ record { name = name.now; asked = asked } ∷ []) }
        ensures kept { OnOk result (AreFound (texts_of self.new.names.items) self.new.index self.new.indexed) }
        ensures err { IfErr result (λ e. e ≡ Fault.Memory) }
    {
        let key = String::from_str(alloc, folded.as_str())?;
        self.index.insert(key, self.names.len())?;
        self.names.push(Named::of(alloc, name, asked)?)?;
        Ok(())
    }

    /// Adds a name that none of the others is, where they aren't indexed.
    fn append(&mut self, alloc: Global, name: &Text, asked: Asked) -> Result<(), Fault>
        requires compared { self.old.indexed ≡ false }
        ensures names { OnOk result (self.new.names.items ≡ self.old.names.items ++ record { name = name.now; asked = asked } ∷ []) }
        ensures kept { OnOk result (AreFound (texts_of self.new.names.items) self.new.index self.new.indexed) }
        ensures err { IfErr result (λ e. e ≡ Fault.Memory) }
    {
        self.names.push(Named::of(alloc, name, asked)?)?;
        Ok(())
    }

    /// Asks that of the name at this place too, which is alike, unless the two clash.
    fn join(&mut self, at: usize, name: &Text, place: Place, asked: Asked) -> Result<(), Fault>
        requires found { AreFound (texts_of self.old.names.items) self.old.index self.old.indexed }
        requires there { place_of (text_folded name.now) (texts_of self.old.names.items) ≡ Some at }
        requires alone { opposed (asks_view asked) (asks_view asked) ≡ false }
        ensures gathers { Gathers result self.old.names.items self.new.names.items (use_of place (asks_view asked) name.now ∷ []) }
        ensures kept { OnOk result (AreFound (texts_of self.new.names.items) self.new.index self.new.indexed) }
    {
        if self.names[at].differs(name, place, asked) {
            return Err(clash(place));
        }
        self.names[at].join(asked);
        Ok(())
    }

    /// Adds a name as `add` does, where they are indexed.
    fn add_indexed(
        &mut self,
        alloc: Global,
        name: &Text,
        place: Place,
        asked: Asked,
    ) -> Result<(), Fault>
        requires found { AreFound (texts_of self.old.names.items) self.old.index self.old.indexed }
        requires indexed { self.old.indexed ≡ true }
        requires alone { opposed (asks_view asked) (asks_view asked) ≡ false }
        ensures gathers { Gathers result self.old.names.items self.new.names.items (use_of place (asks_view asked) name.now ∷ []) }
        ensures kept { OnOk result (AreFound (texts_of self.new.names.items) self.new.index self.new.indexed) }
    {
        let folded = folded_text(alloc, name)?;
        match self.find_folded(&folded) {
            None => self.insert(alloc, &folded, name, asked),
            Some(at) => self.join(at, name, place, asked),
        }
    }

    /// Adds a name as `add` does, where they aren't indexed.
    fn add_compared(
        &mut self,
        alloc: Global,
        name: &Text,
        place: Place,
        asked: Asked,
    ) -> Result<(), Fault>
        requires found { AreFound (texts_of self.old.names.items) self.old.index self.old.indexed }
        requires compared { self.old.indexed ≡ false }
        requires alone { opposed (asks_view asked) (asks_view asked) ≡ false }
        ensures gathers { Gathers result self.old.names.items self.new.names.items (use_of place (asks_view asked) name.now ∷ []) }
        ensures kept { OnOk result (AreFound (texts_of self.new.names.items) self.new.index self.new.indexed) }
    {
        match find_alike(&self.names, name) {
            None => self.append(alloc, name, asked),
            Some(at) => self.join(at, name, place, asked),
        }
    }

    /// Adds a name behind the others, unless it is one of them, and asks that of its field. One that differs from another in the
    /// case of letters alone is refused at the place of its item, and so is one of whose field both kinds are asked.
    fn add(&mut self, alloc: Global, name: &Text, place: Place, asked: Asked) -> Result<(), Fault>
        requires { AreFound (texts_of self.old.names.items) self.old.index self.old.indexed }
        ensures gathers { Gathers result self.old.names.items self.new.names.items (use_of place (asks_view asked) name.now ∷ []) }
        ensures kept { OnOk result (AreFound (texts_of self.new.names.items) self.new.index self.new.indexed) }
    {
        if asked.opposes(asked) {
            return Err(clash(place));
        }
        if self.indexed {
            return self.add_indexed(alloc, name, place, asked);
        }
        self.add_compared(alloc, name, place, asked)
    }

    fn add_names(
        &mut self,
        alloc: Global,
        names: &[Text],
        place: Place,
        asked: Asked,
    ) -> Result<(), Fault>
        requires { AreFound (texts_of self.old.names.items) self.old.index self.old.indexed }
        ensures gathers { Gathers result self.old.names.items self.new.names.items (map (use_of place (asks_view asked)) names.now) }
        ensures kept { OnOk result (AreFound (texts_of self.new.names.items) self.new.index self.new.indexed) }
    {
        for name in names {
            self.add(alloc, name, place, asked)?;
        }
        Ok(())
    }

    /// Adds an item's own names.
    fn add_fields(
        &mut self,
        alloc: Global,
        fields: &Fields,
        place: Place,
        asked: Asked,
    ) -> Result<(), Fault>
        requires { AreFound (texts_of self.old.names.items) self.old.index self.old.indexed }
        ensures gathers { Gathers result self.old.names.items self.new.names.items (map (use_of place (asks_view asked)) (names_in fields.now)) }
        ensures kept { OnOk result (AreFound (texts_of self.new.names.items) self.new.index self.new.indexed) }
    {
        match fields {
            Fields::Keyword => Ok(()),
            Fields::Names(names) => self.add_names(alloc, names.as_slice(), place, asked),
        }
    }

    /// Adds the name that a test compares with.
    fn add_reference(&mut self, alloc: Global, test: &Test, place: Place) -> Result<(), Fault>
        requires { AreFound (texts_of self.old.names.items) self.old.index self.old.indexed }
        ensures gathers { Gathers result self.old.names.items self.new.names.items (test_uses place test.now) }
        ensures kept { OnOk result (AreFound (texts_of self.new.names.items) self.new.index self.new.indexed) }
    {
        match test.reference() {
            None => Ok(()),
            Some(name) => self.add(alloc, name, place, Asked::nothing()),
        }
    }

    #[tactic(auto, using(crate::proofs::Gathering::turn, crate::proofs::Gathering::stop))]
    fn add_tests(&mut self, alloc: Global, tests: &[Test], place: Place) -> Result<(), Fault>
        requires { AreFound (texts_of self.old.names.items) self.old.index self.old.indexed }
        ensures gathers { Gathers result self.old.names.items self.new.names.items (value_uses place tests.now) }
        ensures kept { OnOk result (AreFound (texts_of self.new.names.items) self.new.index self.new.indexed) }
    {
        for test in tests {
            self.add_reference(alloc, test, place)?;
        }
        Ok(())
    }

    #[tactic(auto, using(crate::proofs::Gathering::turn, crate::proofs::Gathering::stop))]
    fn add_values(&mut self, alloc: Global, values: &[Tests], place: Place) -> Result<(), Fault>
        requires { AreFound (texts_of self.old.names.items) self.old.index self.old.indexed }
        ensures gathers { Gathers result self.old.names.items self.new.names.items (flat_map (value_uses place) values.now) }
        ensures kept { OnOk result (AreFound (texts_of self.new.names.items) self.new.index self.new.indexed) }
    {
        for tests in values {
            self.add_tests(alloc, tests.as_slice(), place)?;
        }
        Ok(())
    }

    /// Adds an item's names, and those that its tests compare with.
    fn add_item(&mut self, alloc: Global, item: &Item) -> Result<(), Fault>
        requires { AreFound (texts_of self.old.names.items) self.old.index self.old.indexed }
        ensures gathers { Gathers result self.old.names.items self.new.names.items (item_uses item.now) }
        ensures kept { OnOk result (AreFound (texts_of self.new.names.items) self.new.index self.new.indexed) }
    {
        let asked = asked_by(item.tests.as_slice());
        self.add_fields(alloc, &item.fields, item.place, asked)?;
        self.add_values(alloc, item.tests.as_slice(), item.place)
    }

    #[tactic(auto, using(crate::proofs::Gathering::turn, crate::proofs::Gathering::stop))]
    fn add_items(&mut self, alloc: Global, items: &[Item]) -> Result<(), Fault>
        requires { AreFound (texts_of self.old.names.items) self.old.index self.old.indexed }
        ensures gathers { Gathers result self.old.names.items self.new.names.items (flat_map item_uses items.now) }
        ensures kept { OnOk result (AreFound (texts_of self.new.names.items) self.new.index self.new.indexed) }
    {
        for item in items {
            self.add_item(alloc, item)?;
        }
        Ok(())
    }

    #[tactic(auto, using(crate::proofs::Gathering::turn, crate::proofs::Gathering::stop))]
    fn add_alternatives(&mut self, alloc: Global, alternatives: &[Alternative]) -> Result<(), Fault>
        requires { AreFound (texts_of self.old.names.items) self.old.index self.old.indexed }
        ensures gathers { Gathers result self.old.names.items self.new.names.items (flat_map alternative_uses alternatives.now) }
        ensures kept { OnOk result (AreFound (texts_of self.new.names.items) self.new.index self.new.indexed) }
    {
        for alternative in alternatives {
            self.add_items(alloc, alternative.as_slice())?;
        }
        Ok(())
    }

    #[tactic(auto, using(crate::proofs::Gathering::turn, crate::proofs::Gathering::stop))]
    fn add_detections(&mut self, alloc: Global, detections: &[Detection]) -> Result<(), Fault>
        requires { AreFound (texts_of self.old.names.items) self.old.index self.old.indexed }
        ensures gathers { Gathers result self.old.names.items self.new.names.items (flat_map detection_uses detections.now) }
        ensures kept { OnOk result (AreFound (texts_of self.new.names.items) self.new.index self.new.indexed) }
    {
        for detection in detections {
            self.add_alternatives(alloc, detection.alternatives.as_slice())?;
        }
        Ok(())
    }
}

/// With how many names the tests of values compare.
fn count_references(values: &[Tests]) -> usize {
    let mut count: usize = 0;
    for tests in values {
        for test in tests.as_slice() {
            if test.reference().is_some() {
                count = count.saturating_add(1);
            }
        }
    }
    count
}

/// How many names items use.
fn count_uses(items: &[Item]) -> usize {
    let mut count: usize = 0;
    for item in items {
        if let Fields::Names(names) = &item.fields {
            count = count.saturating_add(names.as_slice().len());
        }
        count = count.saturating_add(count_references(item.tests.as_slice()));
    }
    count
}

/// Whether a rule may use more than a few names.
fn has_many(detections: &[Detection]) -> bool {
    let mut count: usize = 0;
    for detection in detections {
        for alternative in detection.alternatives.as_slice() {
            count = count.saturating_add(count_uses(alternative.as_slice()));
        }
    }
    count > FEW
}

/// The names of a rule's fields, each once in the order of their first appearance, with what all their uses ask.
pub fn gather(alloc: Global, detections: &[Detection]) -> Result<Vec<Named>, Fault>
    ensures { Judged (λ ns. AreMade (spec.uses_of (spec.items_of detections.now)) ns.items) (spec.clash_behind [] (spec.uses_of (spec.items_of detections.now))) result }
{
    let mut gathered = Gathered::new(alloc, has_many(detections));
    gathered.add_detections(alloc, detections)?;
    Ok(gathered.names)
}
