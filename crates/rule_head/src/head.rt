//! Heads of rules: what stands at their top beside the log source and the detections.

ghost use Rattle.std.specs.Prelude.{◌≡◌, [], not, filter, codes, Some, IfOk, IfErr};
ghost use Rattle.sig_base.specs.Judged.{Judged, first};
ghost use Rattle.yaml_tree.specs.View.{node_view, entry_view, entries_view};
ghost use Rattle.rule_head.specs.Plain.{head_with};
ghost use Rattle.rule_head.specs.Heads as heads;
ghost use Rattle.yaml_tree.specs.Nodes as spec;
ghost use Rattle.rule_head.specs.Plain.{head_view};

use crate::checks::{Check, at_key, copy_at, copy_characters};
use sig_base::{Code, Fault, Place, Text, must, refused};
use std::alloc::Global;
use yaml_tree::{Entry, Node, all_entries, is_map, place_of, value_at};

/// The title, identifier and name of a rule, the place of its document, and the entries that the head doesn't check.
#[derive(Drop, Debug)]
pub struct Head {
    pub title: Text,
    pub id: Option<Text>,
    pub name: Option<Text>,
    pub place: Place,
    pub rest: Vec<Entry>,
}

/// Whether the head checks what stands at the entry's key.
fn is_checked(entry: &Entry) -> bool
    ensures { result ≡ heads.is_checked (entry_view entry.now) }
{
    let key = &entry.key;
    key.is("title")
        || key.is("id")
        || key.is("name")
        || key.is("status")
        || key.is("date")
        || key.is("modified")
        || key.is("level")
}

/// The entries that the head doesn't check.
pub fn copy_rest(alloc: Global, entries: &[Entry]) -> Result<Vec<Entry>, Fault>
    ensures ok { IfOk result (λ es. entries_view es.items ≡ filter (λ e. not (heads.is_checked e)) (entries_view entries.now)) }
    ensures err { IfErr result (λ e. e ≡ Fault.Memory) }
{
    let mut rest = Vec::with_capacity(alloc, entries.len())?;
    for entry in entries {
        if !is_checked(entry) {
            rest.push(entry.copy(alloc)?)?;
        }
    }
    Ok(rest)
}

/// Checks the keys of a head in their order, and answers the title's node.
fn check_head(node: &Node) -> Result<&Node, Fault>
    ensures { Judged (λ title. spec.value_in (codes "title") (spec.entries_in (node_view node.now)) ≡ Some (node_view title.now))
        (first (heads.head_checks (node_view node.now))) result }
{
    must(Code::WRONG_SHAPE, place_of(node), is_map(node))?;
    let Some(title) = value_at(node, "title") else {
        return Err(refused(Code::MISSING_KEY, place_of(node)));
    };
    must(Code::BAD_TITLE, place_of(title), Check::Title.takes(title))?;
    at_key(node, "id", Check::Id)?;
    at_key(node, "name", Check::Text)?;
    at_key(node, "status", Check::Status)?;
    at_key(node, "date", Check::Date)?;
    at_key(node, "modified", Check::Date)?;
    at_key(node, "level", Check::Level)?;
    Ok(title)
}

impl Head {
    /// Reads the head of the rule that a document is. The document's node is refused 71 where it is no map, 70
    /// where it has no title, and then each key by its own code: `title` 72, `id` 73, `name` 71, `status` 75,
    /// `date` and `modified` 74, `level` 76, in this order. Other keys are kept as they are.
    pub fn read(alloc: Global, node: &Node) -> Result<Head, Fault>
        ensures { Judged (λ h. heads.IsHead (node_view node.now) (head_view h)) (first (heads.head_checks (node_view node.now))) result }
    {
        let mut head = Head::read_bare(alloc, node)?;
        head.rest = copy_rest(alloc, all_entries(node))?;
        Ok(head)
    }

    /// Reads a head as `read` does, and keeps no other keys: `rest` is empty.
    pub fn read_bare(alloc: Global, node: &Node) -> Result<Head, Fault>
        ensures judged { Judged (λ h. heads.IsHead (node_view node.now) (head_with (heads.rest_of (node_view node.now)) (head_view h)))
            (first (heads.head_checks (node_view node.now))) result }
        ensures bare { IfOk result (λ h. (head_view h).rest ≡ []) }
    {
        let title = check_head(node)?;
        let title = copy_characters(alloc, title)?;
        let id = copy_at(alloc, node, "id")?;
        let name = copy_at(alloc, node, "name")?;
        Ok(Head {
            title,
            id,
            name,
            place: place_of(node),
            rest: Vec::new(alloc),
        })
    }
}
