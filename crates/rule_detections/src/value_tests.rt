//! The tests that a chain makes of a value.

ghost use Rattle.std.specs.Prelude.{◌≡◌, ◌∷◌, [], List, map, IfOk, IfErr};
ghost use Rattle.std.specs.Str.{chars};
ghost use Rattle.sig_base.specs.Judged.{Judged};
ghost use Rattle.sig_base.specs.declared.refusal.Place as places;
ghost use Rattle.modifier_values.specs.Uses.{expression, network, ordered, pattern, reference};
ghost use Rattle.rule_detections.specs.PlainTests.{ArePlainTests};
ghost use Rattle.rule_detections.specs.Resolved.{UseJudged, ScalarJudged};
ghost use Rattle.rule_detections.specs.TestsOf as uses;
ghost use Rattle.rule_detections.specs.declared.test.Test.TheVariants.{Fits};
ghost use Rattle.yaml_tree.specs.Tree.{null, truth, whole, text};
ghost use Rattle.yaml_tree.specs.View.{node_view};

use crate::test::{Test, Tests};
use event_schema::decimal_in;
use itoa::Buffer;
use modifier_values::{
    check_ordered, networks_are_bounded, read_expression, read_network, read_patterns,
    read_reference,
};
use modifier_words::{Chain, ChainForm, Flags, Op};
use sig_base::{Code, Fault, Limits, Place, Text, refused};
use sig_strings::SharedPattern;
use std::alloc::Global;
use yaml_tree::{Kind, Node};

fn one_test(alloc: Global, test: Test) -> Result<Tests, Fault>
    ensures ok { IfOk result (λ tests. tests ≡ test ∷ []) }
    ensures err { IfErr result (λ e. e ≡ Fault.Memory) }
{
    let mut tests = Tests::with_capacity(alloc, 1)?;
    tests.push(test)?;
    Ok(tests)
}

/// How a truth value is written.
fn truth_text(value: bool) -> &'static str
    ensures { chars result.now ≡ uses.truth_text value }
{
    if value { "true" } else { "false" }
}

/// A test for each pattern.
fn fits_tests(alloc: Global, patterns: &[SharedPattern], cased: bool) -> Result<Tests, Fault>
    ensures ok { IfOk result (λ tests. tests ≡ map (λ parts. Fits parts cased) patterns.now) }
    ensures err { IfErr result (λ e. e ≡ Fault.Memory) }
{
    let mut tests = Tests::with_capacity(alloc, patterns.len())?;
    for pattern in patterns {
        let copy = pattern.copy()?;
        tests.push(Test::Fits {
            pattern: copy,
            cased,
        })?;
    }
    Ok(tests)
}

/// The tests that a text fits the patterns which this text stands for.
fn resolve_text(
    alloc: Global,
    limits: &Limits,
    chain: &Chain,
    text: &str,
    place: Place,
) -> Result<Tests, Fault>
    ensures judged { (unbuilt : List places.Place) → UseJudged unbuilt chain.now limits.now place (pattern (chars text.now)) result }
    ensures plain { IfOk result ArePlainTests }
{
    let patterns = read_patterns(alloc, limits, chain, text, place)?;
    fits_tests(alloc, &patterns, chain.is_cased())
}

/// The test that a value is an address of the network which this text is.
fn resolve_network(
    alloc: Global,
    limits: &Limits,
    chain: &Chain,
    text: &str,
    place: Place,
) -> Result<Tests, Fault>
    ensures judged { (unbuilt : List places.Place) → UseJudged unbuilt chain.now limits.now place (network (chars text.now)) result }
    ensures plain { IfOk result ArePlainTests }
{
    networks_are_bounded();
    let network = read_network(limits, text, place)?;
    one_test(alloc, Test::Inside(network))
}

/// The test that a value stands so to a number.
fn resolve_ordered(
    alloc: Global,
    limits: &Limits,
    chain: &Chain,
    op: Op,
    number: i64,
    place: Place,
) -> Result<Tests, Fault>
    ensures judged { (unbuilt : List places.Place) → UseJudged unbuilt chain.now limits.now place (ordered op number) result }
    ensures plain { IfOk result ArePlainTests }
{
    check_ordered(number, place)?;
    one_test(alloc, Test::Compare { op, number })
}

/// The test that a value is that of the field of this name.
fn resolve_reference(
    alloc: Global,
    limits: &Limits,
    chain: &Chain,
    text: &Text,
    place: Place,
) -> Result<Tests, Fault>
    ensures judged { (unbuilt : List places.Place) → UseJudged unbuilt chain.now limits.now place (reference text.now) result }
    ensures plain { IfOk result ArePlainTests }
{
    let name = read_reference(alloc, limits, text, place)?;
    one_test(alloc, Test::SameAs(name))
}

/// The test that the regular expression which this text is read as is found in a value.
fn resolve_expression(
    alloc: Global,
    limits: &Limits,
    unbuilt: &[Place],
    chain: &Chain,
    flags: Flags,
    text: &Text,
    place: Place,
) -> Result<Tests, Fault>
    ensures judged { UseJudged unbuilt.now chain.now limits.now place (expression flags text.now) result }
    ensures plain { IfOk result ArePlainTests }
{
    let written = read_expression(alloc, limits, unbuilt, flags, text, place)?;
    one_test(
        alloc,
        Test::Finds {
            text: written,
            flags,
        },
    )
}

fn resolve_null(alloc: Global, limits: &Limits, chain: &Chain, place: Place) -> Result<Tests, Fault>
    ensures judged { (unbuilt : List places.Place) → ScalarJudged unbuilt chain.now limits.now place null result }
    ensures plain { IfOk result ArePlainTests }
{
    match chain.form() {
        ChainForm::Bare | ChainForm::Texts { nulls: true } => one_test(alloc, Test::Absent),
        ChainForm::Presence
        | ChainForm::Networks
        | ChainForm::Orders(_)
        | ChainForm::Reference
        | ChainForm::Expressions(_)
        | ChainForm::Texts { nulls: false } => Err(refused(Code::VALUE_NOT_ALLOWED, place)),
    }
}

fn resolve_truth(
    alloc: Global,
    limits: &Limits,
    chain: &Chain,
    value: bool,
    place: Place,
) -> Result<Tests, Fault>
    ensures judged { (unbuilt : List places.Place) → ScalarJudged unbuilt chain.now limits.now place (truth value) result }
    ensures plain { IfOk result ArePlainTests }
{
    match chain.form() {
        ChainForm::Presence => one_test(alloc, Test::Exists(value)),
        ChainForm::Networks
        | ChainForm::Orders(_)
        | ChainForm::Reference
        | ChainForm::Expressions(_) => Err(refused(Code::VALUE_NOT_ALLOWED, place)),
        ChainForm::Bare | ChainForm::Texts { .. } => {
            resolve_text(alloc, limits, chain, truth_text(value), place)
        }
    }
}

fn resolve_whole(
    alloc: Global,
    limits: &Limits,
    chain: &Chain,
    value: &i64,
    place: Place,
) -> Result<Tests, Fault>
    ensures judged { (unbuilt : List places.Place) → ScalarJudged unbuilt chain.now limits.now place (whole value.now) result }
    ensures plain { IfOk result ArePlainTests }
{
    match chain.form() {
        ChainForm::Bare => one_test(alloc, Test::Equals(*value)),
        ChainForm::Presence
        | ChainForm::Networks
        | ChainForm::Reference
        | ChainForm::Expressions(_) => Err(refused(Code::VALUE_NOT_ALLOWED, place)),
        ChainForm::Orders(op) => resolve_ordered(alloc, limits, chain, op, *value, place),
        ChainForm::Texts { .. } => {
            let mut buffer = Buffer::new();
            let text = decimal_in(&mut buffer, *value);
            resolve_text(alloc, limits, chain, text, place)
        }
    }
}

fn resolve_string(
    alloc: Global,
    limits: &Limits,
    unbuilt: &[Place],
    chain: &Chain,
    value: &Text,
    place: Place,
) -> Result<Tests, Fault>
    ensures judged { ScalarJudged unbuilt.now chain.now limits.now place (text value.now) result }
    ensures plain { IfOk result ArePlainTests }
{
    match chain.form() {
        ChainForm::Presence | ChainForm::Orders(_) => {
            Err(refused(Code::VALUE_NOT_ALLOWED, place))
        }
        ChainForm::Reference => resolve_reference(alloc, limits, chain, value, place),
        ChainForm::Expressions(flags) => {
            resolve_expression(alloc, limits, unbuilt, chain, flags, value, place)
        }
        ChainForm::Networks => resolve_network(alloc, limits, chain, value.as_str(), place),
        ChainForm::Bare | ChainForm::Texts { .. } => {
            resolve_text(alloc, limits, chain, value.as_str(), place)
        }
    }
}

/// The tests that a chain makes of a value, which are its alternatives; `unbuilt` are the places at which a regular expression
/// isn't built. At the value's place, a value that the chain doesn't take is refused 42, a text of more characters than
/// `value_chars` 49, one with U+0000 50, a wildcard in what is encoded 43, one byte under `base64offset` or no legal name under
/// `fieldref` 42, one that is no network under `cidr` 44, -2^63 under `lt`, `lte`, `gt` and `gte` 45, more dash places than
/// `dashes` 46, and under `re` one whose regular expression the grammar doesn't read 47, and one at such a place 48, the first
/// of these in this order.
pub fn resolve(
    alloc: Global,
    limits: &Limits,
    unbuilt: &[Place],
    chain: &Chain,
    value: &Node,
) -> Result<Tests, Fault>
    ensures judged { Judged (λ tests. uses.TestsOf chain.now (node_view value.now) tests)
        (uses.value_refusal unbuilt.now limits.now.value_chars limits.now.dashes chain.now (node_view value.now)) result }
    ensures plain { IfOk result ArePlainTests }
{
    match &value.kind {
        Kind::Null => resolve_null(alloc, limits, chain, value.place),
        Kind::Truth(truth) => resolve_truth(alloc, limits, chain, *truth, value.place),
        Kind::Whole(number) => resolve_whole(alloc, limits, chain, number, value.place),
        Kind::Text(text) => resolve_string(alloc, limits, unbuilt, chain, text, value.place),
        Kind::List(_) | Kind::Map(_) => Err(refused(Code::VALUE_NOT_ALLOWED, value.place)),
    }
}
