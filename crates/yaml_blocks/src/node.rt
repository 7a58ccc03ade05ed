//! Block maps and sequences (YAML 1.2, 8.2), and the nodes inside them.

ghost use Rattle.std.specs.Prelude.{◌≡◌, ℕ, List, ◌<◌, ◌≤◌, ◌++◌, ◌∷◌, [], true, false, length, IfOk};
ghost use Rattle.yaml_tree.specs.View.{place_view, node_view, entry_view};
ghost use Rattle.yaml_inline.specs.File as file;
ghost use Rattle.yaml_inline.specs.Flow as flow;
ghost use Rattle.yaml_inline.specs.Line.{is_dash};
ghost use Rattle.yaml_inline.specs.SeenKeys.{Knows};
ghost use Rattle.yaml_inline.specs.View.{line_view, text_front, Gives};
ghost use Rattle.yaml_blocks.specs.Reading as reading;
ghost use Rattle.yaml_blocks.specs.Views.{lines_view};
ghost use Rattle.yaml_blocks.specs.Items as spec;

use crate::inside::{after_spaces, content_of, count_comments, lines_inside, offset};
use crate::lines::{body, has_bad_start, lines_behind, unexpected};
use crate::scalar_or_flow::{alone, scalar_or_flow};
use sig_base::{Code, Place, Text};
use std::alloc::Global;
use yaml_inline::flow::{is_quote, no_reading, quoted, refused};
use yaml_inline::key::{key_at, past_colon, plain_key_at};
use yaml_inline::room::push_fitting;
use yaml_inline::scan::{behind, is_dash, skip_blanks, spot};
use yaml_inline::{Halt, Line, Seen};
use yaml_tree::{Entry, Node};

/// The tree of a block of lines, with collections at most so deep. Null stands at home where the
/// lines carry nothing.
pub fn read_block(
    alloc: Global,
    depth: usize,
    home: Place,
    lines: &[Line<'_>],
) -> Result<Node, Halt>
    ensures { Gives node_view result (reading.block_in depth 0 (place_view home) (lines_view lines.now)) }
{
    block(alloc, depth, 0, home, lines)
}

/// The node of a block, in which a scalar's continuation lines are indented at least so far.
#[cycle(node)]
fn block(
    alloc: Global,
    depth: usize,
    least: usize,
    home: Place,
    lines: &[Line<'_>],
) -> Result<Node, Halt>
    ensures { Gives node_view result (reading.block_in depth least (place_view home) (lines_view lines.now)) }
{
    let rest = lines_behind(lines, count_comments(lines));
    let Some((line, more)) = rest.split_first() else {
        return Ok(Node::null(home));
    };
    if has_bad_start(line) {
        return Err(unexpected(line));
    }
    node(alloc, depth, true, least, line, body(line), more)
}

/// The node that begins here; a block collection only if one may stand here.
#[cycle(node)]
fn node(
    alloc: Global,
    depth: usize,
    may: bool,
    least: usize,
    line: &Line<'_>,
    rest: &[char],
    lines: &[Line<'_>],
) -> Result<Node, Halt>
    requires within { length rest.now ≤ length line.now.text.now }
    requires solid { file.blank_or_end rest.now ≡ false }
    ensures { Gives node_view result (reading.node_in depth may least (line_view line.now) rest.now (lines_view lines.now)) }
{
    if !may {
        return scalar_or_flow(alloc, depth, least, line, rest, lines);
    }
    if is_dash(rest) {
        return sequence(alloc, depth, line, rest, lines);
    }
    if is_quote(rest) {
        return quoted_node(alloc, depth, line, rest, lines);
    }
    let Some(found) = plain_key_at(line, rest)? else {
        return scalar_or_flow(alloc, depth, least, line, rest, lines);
    };
    let key = Text::from_chars(alloc, found.0)?;
    map(alloc, depth, line, rest, key, found.1, lines)
}

/// The node that begins here with a quote: a map where its first key stands in quotes, or a text.
#[cycle(node)]
fn quoted_node(
    alloc: Global,
    depth: usize,
    line: &Line<'_>,
    rest: &[char],
    lines: &[Line<'_>],
) -> Result<Node, Halt>
    requires within { length rest.now ≤ length line.now.text.now }
    requires quote { flow.is_quote rest.now ≡ true }
    ensures { (m : ℕ) → Gives node_view result (reading.node_in depth true m (line_view line.now) rest.now (lines_view lines.now)) }
{
    let (content, after) = quoted(alloc, line, rest)?;
    match past_colon(skip_blanks(after)) {
        Some(others) => map(alloc, depth, line, rest, content, others, lines),
        None => alone(line, after, lines, Node::text(spot(line, rest), content)),
    }
}

/// The sequence that begins here, with collections at most so deep, itself counted.
#[cycle(node)]
fn sequence(
    alloc: Global,
    depth: usize,
    line: &Line<'_>,
    rest: &[char],
    lines: &[Line<'_>],
) -> Result<Node, Halt>
    requires { length rest.now ≤ length line.now.text.now }
    ensures { Gives node_view result (spec.list_in depth (line_view line.now) rest.now (lines_view lines.now)) }
{
    if depth == 0 {
        return Err(refused(Code::TOO_DEEP, line, rest));
    }
    let elements = elements(alloc, depth - 1, line, rest, lines)?;
    Ok(Node::list(spot(line, rest), elements))
}

/// The map that begins here with this key, with collections at most so deep, itself counted.
#[cycle(node)]
fn map<'t>(
    alloc: Global,
    depth: usize,
    line: &Line<'_>,
    rest: &'t [char],
    key: Text,
    after: &'t [char],
    lines: &[Line<'_>],
) -> Result<Node, Halt>
    requires within { length rest.now ≤ length line.now.text.now }
    requires key { spec.IsKey (line_view line.now) rest.now key after.now }
    ensures { Gives node_view result (spec.mapping_in depth (line_view line.now) rest.now (lines_view lines.now)) }
{
    if depth == 0 {
        return Err(refused(Code::TOO_DEEP, line, rest));
    }
    let entries = entries(alloc, depth - 1, line, rest, key, after, lines)?;
    Ok(Node::map(spot(line, rest), entries))
}

/// The elements of the sequence that begins here.
#[cycle(node)]
fn elements(
    alloc: Global,
    depth: usize,
    line: &Line<'_>,
    rest: &[char],
    lines: &[Line<'_>],
) -> Result<Vec<Node>, Halt>
    requires { length rest.now ≤ length line.now.text.now }
    ensures { Gives spec.elements_given result (spec.elements_at depth (reading.offset (line_view line.now) rest.now) (reading.items_of false (line_view line.now) rest.now (lines_view lines.now))) }
{
    let level = offset(line, rest);
    let mut elements = Vec::new(alloc);
    let inner = lines_inside(false, level, lines);
    let first = element(alloc, depth, level, line, rest, inner)?;
    push_fitting(&mut elements, first)?;
    let mut at = inner.len();
    while at < lines.len() {
        let line = &lines[at];
        let others = lines_behind(lines, at + 1);
        let inner = lines_inside(false, level, others);
        let next = element(alloc, depth, level, line, body(line), inner)?;
        push_fitting(&mut elements, next)?;
        at += 1 + inner.len();
    }
    Ok(elements)
}

/// The element of an item, behind its dash.
#[cycle(node)]
#[tactic(auto, unfolding(crate::specs::Reading::element_in))]
fn element(
    alloc: Global,
    depth: usize,
    level: usize,
    line: &Line<'_>,
    rest: &[char],
    inner: &[Line<'_>],
) -> Result<Node, Halt>
    requires { length rest.now ≤ length line.now.text.now }
    ensures { Gives node_view result (spec.element_at depth level (spec.item line.now rest.now inner.now)) }
{
    if has_bad_start(line) {
        return Err(unexpected(line));
    }
    if offset(line, rest) != level || !is_dash(rest) {
        return Err(no_reading(line));
    }
    let after = behind(rest, 1);
    match content_of(after) {
        None => block(alloc, depth, level + 1, spot(line, rest), inner),
        Some(next) => node(
            alloc,
            depth,
            after_spaces(after),
            level + 1,
            line,
            next,
            inner,
        ),
    }
}

/// The entries of the map that begins here with this key.
#[cycle(node)]
fn entries<'t>(
    alloc: Global,
    depth: usize,
    line: &Line<'_>,
    rest: &'t [char],
    key: Text,
    after: &'t [char],
    lines: &[Line<'_>],
) -> Result<Vec<Entry>, Halt>
    requires within { length rest.now ≤ length line.now.text.now }
    requires key { spec.IsKey (line_view line.now) rest.now key after.now }
    ensures { Gives spec.entries_given result (spec.entries_at depth (reading.offset (line_view line.now) rest.now) [] (reading.items_of true (line_view line.now) rest.now (lines_view lines.now))) }
{
    let level = offset(line, rest);
    let mut seen = Seen::new(alloc);
    let mut entries = Vec::new(alloc);
    let inner = lines_inside(true, level, lines);
    let read = Some((key, after));
    let first = entry(alloc, depth, level, &mut seen, line, rest, read, inner)?;
    push_fitting(&mut entries, first)?;
    let mut at = inner.len();
    while at < lines.len() {
        let line = &lines[at];
        let others = lines_behind(lines, at + 1);
        let inner = lines_inside(true, level, others);
        let next = entry(
            alloc,
            depth,
            level,
            &mut seen,
            line,
            body(line),
            None,
            inner,
        )?;
        push_fitting(&mut entries, next)?;
        at += 1 + inner.len();
    }
    Ok(entries)
}

/// The entry of an item, whose key may be read already, and isn't one of those seen.
#[cycle(node)]
#[tactic(auto, unfolding(crate::specs::Reading::entry_in))]
fn entry<'t>(
    alloc: Global,
    depth: usize,
    level: usize,
    seen: &mut Seen,
    line: &Line<'_>,
    rest: &'t [char],
    read: Option<(Text, &'t [char])>,
    inner: &[Line<'_>],
) -> Result<Entry, Halt>
    requires within { length rest.now ≤ length line.now.text.now }
    requires read { spec.IsRead (line_view line.now) rest.now read }
    ensures entry { (ks : List (List ℕ)) → Knows seen.old ks → Gives entry_view result (spec.entry_at depth level ks (spec.item line.now rest.now inner.now)) }
    ensures seen { (ks : List (List ℕ)) → Knows seen.old ks → IfOk result (λ e. Knows seen.new (ks ++ (entry_view e).key ∷ [])) }
{
    let (key, after) = fresh_key(alloc, level, seen, line, rest, read)?;
    let place = spot(line, rest);
    let value = value(alloc, depth, level, place, line, after, inner)?;
    Ok(Entry { key, place, value })
}

/// The value behind a key's colon; null has the key's place.
#[cycle(node)]
fn value(
    alloc: Global,
    depth: usize,
    level: usize,
    home: Place,
    line: &Line<'_>,
    after: &[char],
    inner: &[Line<'_>],
) -> Result<Node, Halt>
    requires within { length after.now ≤ length line.now.text.now }
    requires short { level < 4294967295 }
    ensures { Gives node_view result (spec.behind depth false level (place_view home) (line_view line.now) after.now (lines_view inner.now)) }
{
    match content_of(after) {
        None => block(alloc, depth, level + 1, home, inner),
        Some(next) => node(alloc, depth, false, level + 1, line, next, inner),
    }
}

/// The key of an item at this indentation, and what follows its colon.
#[tactic(auto, unfolding(crate::specs::Reading::item_key))]
fn item_key<'t>(
    alloc: Global,
    level: usize,
    line: &Line<'_>,
    rest: &'t [char],
    read: Option<(Text, &'t [char])>,
) -> Result<(Text, &'t [char]), Halt>
    requires within { length rest.now ≤ length line.now.text.now }
    requires read { spec.IsRead (line_view line.now) rest.now read }
    ensures key { Gives text_front result (reading.item_key level (line_view line.now) rest.now) }
    ensures short { IfOk result (λ p. level < 4294967295) }
    ensures shorter { IfOk result (λ p. length p.1.now < length rest.now) }
{
    if has_bad_start(line) {
        return Err(unexpected(line));
    }
    if offset(line, rest) != level {
        return Err(no_reading(line));
    }
    if let Some(found) = read {
        return Ok(found);
    }
    match key_at(alloc, line, rest)? {
        Some((key, after)) => Ok((key, after)),
        None => Err(no_reading(line)),
    }
}

/// The key of an item that isn't one of those seen, to which it's added.
#[tactic(auto, unfolding(crate::specs::Reading::key_in))]
fn fresh_key<'t>(
    alloc: Global,
    level: usize,
    seen: &mut Seen,
    line: &Line<'_>,
    rest: &'t [char],
    read: Option<(Text, &'t [char])>,
) -> Result<(Text, &'t [char]), Halt>
    requires within { length rest.now ≤ length line.now.text.now }
    requires read { spec.IsRead (line_view line.now) rest.now read }
    ensures key { (ks : List (List ℕ)) → Knows seen.old ks → Gives text_front result (reading.key_in level ks (line_view line.now) rest.now) }
    ensures seen { (ks : List (List ℕ)) → Knows seen.old ks → IfOk result (λ p. Knows seen.new (ks ++ p.0 ∷ [])) }
    ensures short { IfOk result (λ p. level < 4294967295) }
    ensures shorter { IfOk result (λ p. length p.1.now < length rest.now) }
{
    let (key, after) = item_key(alloc, level, line, rest, read)?;
    let fresh = seen.insert(alloc, &key)?;
    if fresh {
        Ok((key, after))
    } else {
        Err(refused(Code::DUPLICATE_KEY, line, rest))
    }
}
