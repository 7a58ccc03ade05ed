//! What the keys of a rule ask of their values.

ghost use Rattle.std.specs.Prelude.{◌≡◌, ◌&&◌, [], ◌∷◌, true, length, nat_le, codes, is_some, encode_utf8_all, IfOk, IfErr};
ghost use Rattle.std.specs.List.{list_any};
ghost use Rattle.std.specs.Str.{bytes_eq};
ghost use Rattle.sig_base.specs.Texts.{is_ascii};
ghost use Rattle.sig_base.specs.Judged.{Judged};
ghost use Rattle.uuid.specs.Text.{parsed};
ghost use Rattle.yaml_tree.specs.View.{node_view};
ghost use Rattle.rule_head.specs.Checks as checks;
ghost use Rattle.yaml_tree.specs.Nodes as spec;

use crate::dates::is_day;
use sig_base::{Code, Fault, Text, count_of, must};
use std::alloc::Global;
use uuid::Uuid;
use yaml_tree::{Node, place_of, text_of, value_at};

/// What is asked of a value: a text, or one of these texts.
#[derive(Clone, Copy)]
pub enum Check {
    Text,
    Title,
    Id,
    Date,
    Status,
    Level,
}

impl Check {
    /// The code with which a value that isn't so is refused.
    pub fn code(self) -> Code
        ensures { result ≡ checks.code_of self }
    {
        match self {
            Check::Text => Code::WRONG_SHAPE,
            Check::Title => Code::BAD_TITLE,
            Check::Id => Code::BAD_ID,
            Check::Date => Code::BAD_DATE,
            Check::Status => Code::BAD_STATUS,
            Check::Level => Code::BAD_LEVEL,
        }
    }

    /// Whether a value is so.
    pub fn takes(self, node: &Node) -> bool
        ensures { result ≡ checks.is_of self (node_view node.now) }
    {
        let Some(text) = text_of(node) else {
            return false;
        };
        match self {
            Check::Text => true,
            Check::Title => is_title(text),
            Check::Id => is_id(text),
            Check::Date => is_day(text),
            Check::Status => is_status(text),
            Check::Level => is_level(text),
        }
    }
}

/// Whether the text has 1 to 256 characters.
fn is_title(text: &Text) -> bool
    ensures { result ≡ (nat_le 1 (length text.now) && nat_le (length text.now) 256) }
{
    let count = count_of(text.as_str());
    1 <= count && count <= 256
}

/// Whether the text is a UUID in one of its written forms.
fn is_id(text: &Text) -> bool
    ensures { result ≡ is_some (parsed (encode_utf8_all text.now)) }
{
    Uuid::parse_str(text.as_str()).is_ok()
}

fn is_status(text: &Text) -> bool
    ensures { result ≡ list_any (λ word. bytes_eq text.now word)
        (codes "stable" ∷ codes "test" ∷ codes "experimental" ∷ codes "deprecated" ∷ codes "unsupported" ∷ []) }
{
    text.is("stable")
        || text.is("test")
        || text.is("experimental")
        || text.is("deprecated")
        || text.is("unsupported")
}

fn is_level(text: &Text) -> bool
    ensures { result ≡ list_any (λ word. bytes_eq text.now word)
        (codes "informational" ∷ codes "low" ∷ codes "medium" ∷ codes "high" ∷ codes "critical" ∷ []) }
{
    text.is("informational")
        || text.is("low")
        || text.is("medium")
        || text.is("high")
        || text.is("critical")
}

/// Refuses the value at a key, if there is one and the check doesn't take it.
pub fn at_key(node: &Node, key: &str, check: Check) -> Result<(), Fault>
    requires { is_ascii key.now ≡ true }
    ensures { Judged (λ done. Unit {0}) (spec.at_key key.now (checks.code_of check) (checks.is_of check) (node_view node.now)) result }
{
    match value_at(node, key) {
        Some(value) => must(check.code(), place_of(value), check.takes(value)),
        None => Ok(()),
    }
}

/// The characters of a text, and none of another node.
pub fn copy_characters(alloc: Global, node: &Node) -> Result<Text, Fault>
    ensures ok { IfOk result (λ t. t ≡ spec.text_in (node_view node.now)) }
    ensures err { IfErr result (λ e. e ≡ Fault.Memory) }
{
    match text_of(node) {
        Some(text) => Text::copy(alloc, text.as_str()),
        None => Ok(Text::new(alloc)),
    }
}

/// The characters of the value at a key, if there is one.
pub fn copy_at(alloc: Global, node: &Node, key: &str) -> Result<Option<Text>, Fault>
    requires { is_ascii key.now ≡ true }
    ensures ok { IfOk result (λ t. t ≡ spec.text_at key.now (node_view node.now)) }
    ensures err { IfErr result (λ e. e ≡ Fault.Memory) }
{
    match value_at(node, key) {
        Some(value) => Ok(Some(copy_characters(alloc, value)?)),
        None => Ok(None),
    }
}
