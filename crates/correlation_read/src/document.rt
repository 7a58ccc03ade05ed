//! Reading correlations.

ghost use Rattle.std.specs.Prelude.{◌≡◌, [], true, codes, map as list_map, IfOk, IfErr};
ghost use Rattle.std.specs.List.{filter_map};
ghost use Rattle.sig_base.specs.Judged.{Judged};
ghost use Rattle.sig_base.specs.Texts.{is_ascii};
ghost use Rattle.yaml_tree.specs.View.{node_view, entry_view, entries_view};
ghost use Rattle.yaml_tree.specs.Nodes as nodes;
ghost use Rattle.rule_head.specs.Heads.{rest_of};
ghost use Rattle.correlation_read.specs.Checks.{body_refusal, correlation_refusal};
ghost use Rattle.correlation_read.specs.Correlations as spec;

use crate::checks::{check_body, number_in};
use crate::correlation::{Alias, AliasField, Correlation};
use crate::words::op_of;
use correlation_windows::{CorrelationKind, Op};
use rule_head::Head;
use sig_base::{Code, Fault, Limits, Sequence, Text, Texts, refused};
use std::alloc::Global;
use yaml_tree::{
    Entry, Node, all_entries, copy_text, copy_texts, entries_at, parts_of, place_of, value_at,
};

/// What the value of `correlation` says.
#[derive(Drop)]
pub(crate) struct Body {
    kind: CorrelationKind,
    rules: Texts,
    group_by: Texts,
    span: i128,
    condition: Sequence<(Op, u64)>,
    counted: Option<Text>,
    aliases: Sequence<Alias>,
}

/// The texts at a key.
fn copy_texts_at(alloc: Global, node: &Node, key: &str) -> Result<Texts, Fault>
    requires { is_ascii key.now ≡ true }
    ensures ok { IfOk result (λ ts. ts ≡ spec.texts_at key.now (node_view node.now)) }
    ensures err { IfErr result (λ e. e ≡ Fault.Memory) }
{
    match value_at(node, key) {
        Some(value) => copy_texts(alloc, parts_of(value)),
        None => Ok(Texts::new(alloc)),
    }
}

fn test_of(key: &Text, value: &Node) -> Option<(Op, u64)>
    ensures { result ≡ spec.tested key.now (node_view value.now) }
{
    let Some(op) = op_of(key) else {
        return None;
    };
    let Some(number) = number_in(value) else {
        return None;
    };
    Some((op, number))
}

fn test_in(entry: &Entry) -> Option<(Op, u64)>
    ensures { result ≡ spec.test_of (entry_view entry.now) }
{
    test_of(&entry.key, &entry.value)
}

fn copy_tests(alloc: Global, entries: &[Entry]) -> Result<Sequence<(Op, u64)>, Fault>
    ensures ok { IfOk result (λ ts. ts ≡ filter_map spec.test_of (entries_view entries.now)) }
    ensures err { IfErr result (λ e. e ≡ Fault.Memory) }
{
    let mut tests = Sequence::new(alloc);
    for entry in entries {
        if let Some(test) = test_in(entry) {
            tests.push(test)?;
        }
    }
    Ok(tests)
}

fn copy_field(alloc: Global, entry: &Entry) -> Result<AliasField, Fault>
    ensures ok { IfOk result (λ f. f ≡ spec.alias_field_of (entry_view entry.now)) }
    ensures err { IfErr result (λ e. e ≡ Fault.Memory) }
{
    let rule = Text::copy(alloc, entry.key.as_str())?;
    let field = copy_text(alloc, &entry.value)?;
    Ok(AliasField { rule, field })
}

fn copy_fields(alloc: Global, entries: &[Entry]) -> Result<Sequence<AliasField>, Fault>
    ensures ok { IfOk result (λ fs. fs ≡ list_map spec.alias_field_of (entries_view entries.now)) }
    ensures err { IfErr result (λ e. e ≡ Fault.Memory) }
{
    let mut fields = Sequence::new(alloc);
    for entry in entries {
        fields.push(copy_field(alloc, entry)?)?;
    }
    Ok(fields)
}

fn copy_alias(alloc: Global, entry: &Entry) -> Result<Alias, Fault>
    ensures ok { IfOk result (λ a. a ≡ spec.alias_of (entry_view entry.now)) }
    ensures err { IfErr result (λ e. e ≡ Fault.Memory) }
{
    let name = Text::copy(alloc, entry.key.as_str())?;
    let fields = copy_fields(alloc, all_entries(&entry.value))?;
    Ok(Alias { name, fields })
}

fn copy_aliases(alloc: Global, entries: &[Entry]) -> Result<Sequence<Alias>, Fault>
    ensures ok { IfOk result (λ all. all ≡ list_map spec.alias_of (entries_view entries.now)) }
    ensures err { IfErr result (λ e. e ≡ Fault.Memory) }
{
    let mut aliases = Sequence::new(alloc);
    for entry in entries {
        aliases.push(copy_alias(alloc, entry)?)?;
    }
    Ok(aliases)
}

/// The field that a condition names.
fn copy_counted(alloc: Global, node: &Node) -> Result<Option<Text>, Fault>
    ensures ok { IfOk result (λ t. t ≡ nodes.text_at (codes "field") (node_view node.now)) }
    ensures err { IfErr result (λ e. e ≡ Fault.Memory) }
{
    match value_at(node, "field") {
        Some(value) => Ok(Some(copy_text(alloc, value)?)),
        None => Ok(None),
    }
}

/// The field whose values are counted.
fn copy_counted_at(alloc: Global, node: &Node) -> Result<Option<Text>, Fault>
    ensures ok { IfOk result (λ t. t ≡ spec.counted_at (node_view node.now)) }
    ensures err { IfErr result (λ e. e ≡ Fault.Memory) }
{
    match value_at(node, "condition") {
        Some(value) => copy_counted(alloc, value),
        None => Ok(None),
    }
}

/// Reads the value of `correlation`.
fn read_body(alloc: Global, node: &Node) -> Result<Body, Fault>
    ensures { Judged (spec.IsBody (node_view node.now)) (body_refusal (node_view node.now)) result }
{
    let checked = check_body(node)?;
    let rules = copy_texts_at(alloc, node, "rules")?;
    let group_by = copy_texts_at(alloc, node, "group-by")?;
    let condition = copy_tests(alloc, entries_at(node, "condition"))?;
    let counted = copy_counted_at(alloc, node)?;
    let aliases = copy_aliases(alloc, entries_at(node, "aliases"))?;
    Ok(Body {
        kind: checked.kind,
        rules,
        group_by,
        span: checked.span,
        condition,
        counted,
        aliases,
    })
}

impl Correlation {
    /// Reads the correlation that a document is. The head is judged first, as a rule's. Then the first key or value in the
    /// document's order that isn't allowed is refused, 142 at a timespan and 140 at all else; a key that is missing is
    /// refused 140 at its map. It takes no copy of the document: of the head no other keys are kept, and `rest` is empty.
    pub fn read(alloc: Global, node: &Node) -> Result<Correlation, Fault>
        ensures judged { Judged (λ c. spec.IsCorrelation (node_view node.now) (spec.correlation_with (rest_of (node_view node.now)) (spec.correlation_view c)))
            (correlation_refusal (node_view node.now)) result }
        ensures bare { IfOk result (λ c. (spec.correlation_view c).head.rest ≡ []) }
        ensures span { IfOk result (λ c. spec.IsSpan c.span) }
    {
        let head = Head::read_bare(alloc, node)?;
        let Some(value) = value_at(node, "correlation") else {
            return Err(refused(Code::CORRELATION_SHAPE, place_of(node)));
        };
        let body = read_body(alloc, value)?;
        Ok(Correlation {
            head,
            kind: body.kind,
            rules: body.rules,
            group_by: body.group_by,
            span: body.span,
            condition: body.condition,
            counted: body.counted,
            aliases: body.aliases,
            place: place_of(node),
        })
    }
}
