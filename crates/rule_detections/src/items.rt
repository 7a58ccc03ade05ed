//! Reading the items of detections.

ghost use Rattle.std.specs.Prelude.{◌≡◌, true, map as list_map, [], ◌∷◌, if◌then◌else◌, IfOk, IfErr};
ghost use Rattle.std.specs.List.{AllZip};
ghost use Rattle.sig_base.specs.Judged.{Judged, first, refusal};
ghost use Rattle.event_schema.specs.Lists.{EachOf};
ghost use Rattle.rule_detections.specs.PlainTests.{ArePlainTests};
ghost use Rattle.rule_detections.specs.TestsOf.{TestsOf, value_refusal};
ghost use Rattle.yaml_tree.specs.View.{node_view, nodes_view, entry_view};
ghost use Rattle.rule_detections.specs.Items as spec;
ghost use Rattle.yaml_tree.specs.Nodes.{parts_in, place_of as node_place};
ghost use Rattle.rule_detections.specs.Whole.{IsWholeItem};

use crate::item::{Fields, Item, Values};
use crate::keys::Key;
use crate::laws::{keyword_tests, some_test};
use crate::value_tests::resolve;
use modifier_words::Chain;
use sig_base::{Code, Fault, Limits, Place, Text, Texts, must};
use std::alloc::Global;
use yaml_tree::{Entry, Node, is_empty, is_scalar, parts_of, place_of};

/// Refuses a value that is no scalar.
fn check_shape(value: &Node) -> Result<(), Fault>
    ensures judged { Judged (λ done. Unit {0}) (spec.shape_refusal (node_view value.now)) result }
    ensures no_memory { IfErr result (λ e. e ≡ Fault.Refused (refusal 71 (node_place (node_view value.now)))) }
{
    must(Code::WRONG_SHAPE, place_of(value), is_scalar(value))
}

/// Refuses the first value that is no scalar.
fn check_shapes(values: &[Node]) -> Result<(), Fault>
    ensures { Judged (λ done. Unit {0}) (first (list_map spec.shape_refusal (nodes_view values.now))) result }
{
    for value in values {
        check_shape(value)?;
    }
    Ok(())
}

/// The tests of each value.
fn read_values(
    alloc: Global,
    limits: &Limits,
    unbuilt: &[Place],
    chain: &Chain,
    values: &[Node],
) -> Result<Values, Fault>
    ensures judged { Judged (λ all. AllZip (TestsOf chain.now) (nodes_view values.now) all)
        (first (list_map (value_refusal unbuilt.now limits.now.value_chars limits.now.dashes chain.now) (nodes_view values.now))) result }
    ensures plain { IfOk result (λ all. EachOf ArePlainTests all) }
{
    let mut all = Values::with_capacity(alloc, values.len())?;
    for value in values {
        let tests = resolve(alloc, limits, unbuilt, chain, value)?;
        all.push(tests)?;
    }
    Ok(all)
}

/// The field of this name, or what keywords ask about.
fn read_fields(alloc: Global, keyword: bool, name: Text) -> Result<Fields, Fault>
    ensures ok { IfOk result (λ fields. fields ≡ (if keyword then Fields.Keyword else Fields.Names (name ∷ []))) }
    ensures err { IfErr result (λ e. e ≡ Fault.Memory) }
{
    if keyword {
        return Ok(Fields::Keyword);
    }
    let mut names = Texts::with_capacity(alloc, 1)?;
    names.push(name)?;
    Ok(Fields::Names(names))
}

/// The tests of the values of an item whose key stands at the place.
fn read_tests(
    alloc: Global,
    limits: &Limits,
    unbuilt: &[Place],
    chain: &Chain,
    place: Place,
    value: &Node,
) -> Result<Values, Fault>
    ensures judged { Judged (λ all. AllZip (TestsOf chain.now) (parts_in (node_view value.now)) all)
        (spec.values_refusal unbuilt.now limits.now chain.now place (node_view value.now)) result }
    ensures plain { IfOk result (λ all. EachOf ArePlainTests all) }
{
    let values = parts_of(value);
    check_shapes(values)?;
    must(Code::EMPTY_LIST, place_of(value), !is_empty(values))?;
    must(
        Code::TOO_MANY_VALUES,
        place,
        values.len() <= limits.list_values,
    )?;
    read_values(alloc, limits, unbuilt, chain, values)
}

impl Item {
    /// Reads an entry of a map: a field's name with modifiers, or modifiers alone for keywords, and one value or a list
    /// of them. `unbuilt` are the places of values at which no regular expression is built.
    pub fn read(
        alloc: Global,
        limits: &Limits,
        unbuilt: &[Place],
        entry: &Entry,
    ) -> Result<Item, Fault>
        ensures judged { Judged (λ i. spec.IsItem (entry_view entry.now) i) (spec.item_refusal unbuilt.now limits.now (entry_view entry.now)) result }
        ensures whole { IfOk result (λ i. IsWholeItem i) }
    {
        some_test();
        keyword_tests();
        let key = Key::read(alloc, &entry.key, entry.place)?;
        let chain = Chain::read(alloc, key.words.as_slice(), key.keyword, entry.place)?;
        let tests = read_tests(alloc, limits, unbuilt, &chain, entry.place, &entry.value)?;
        let fields = read_fields(alloc, key.keyword, key.name)?;
        Ok(Item {
            fields,
            tests,
            joined: chain.joined(),
            place: entry.place,
        })
    }

    /// Reads a scalar by itself, which is a keyword without modifiers.
    pub fn read_keyword(
        alloc: Global,
        limits: &Limits,
        unbuilt: &[Place],
        node: &Node,
    ) -> Result<Item, Fault>
        ensures judged { Judged (λ i. spec.IsKeyword (node_view node.now) i) (spec.keyword_refusal unbuilt.now limits.now (node_view node.now)) result }
        ensures whole { IfOk result (λ i. IsWholeItem i) }
    {
        some_test();
        keyword_tests();
        let words = Texts::new(alloc);
        let place = place_of(node);
        let chain = Chain::read(alloc, words.as_slice(), true, place)?;
        let tests = resolve(alloc, limits, unbuilt, &chain, node)?;
        let mut values = Values::with_capacity(alloc, 1)?;
        values.push(tests)?;
        Ok(Item {
            fields: Fields::Keyword,
            tests: values,
            joined: chain.joined(),
            place,
        })
    }
}
