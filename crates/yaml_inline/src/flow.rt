//! Flow collections and scalars in quotes, on one line (YAML 1.2, 7.3 and 7.4).

ghost use Rattle.std.specs.Prelude.{◌≡◌, ℕ, List, ◌++◌, ◌≤◌, MatchOption, ◌<◌, ◌∷◌, [], true, false, length, drop, Some, IfOk, IfSome, IsNone};
ghost use Rattle.std.specs.Str.{bytes_eq};
ghost use Rattle.yaml_tree.specs.View.{place_view, node_view, entry_view, members_of, entries_view};
ghost use Rattle.yaml_inline.specs.SeenKeys.{Knows};
ghost use Rattle.yaml_inline.specs.File as file;
ghost use Rattle.yaml_inline.specs.Line.{unclosed};
ghost use Rattle.yaml_inline.specs.Quotes.{IsShorter, IsNext};
ghost use Rattle.yaml_inline.specs.Line as spec_line;
ghost use Rattle.yaml_inline.specs.Scalar as scalar;
ghost use Rattle.yaml_inline.specs.Flow as spec;
ghost use Rattle.yaml_inline.specs.View.{line_view, quoted_view, text_front, rest_view, node_front, entry_front, elements_front, entries_front, halt_view, openings_view, Reports, Gives};

use crate::halt::{Halt, Opening};
use crate::line::Line;
use crate::plain::plain_parts;
use crate::quote::{Quoted, double, single};
use crate::room::push_fitting;
use crate::scan::{begins, behind, ends_line, is_left_out, skip_blanks, spot, starts_plain};
use crate::seen::Seen;
use crate::word::resolved;
use sig_base::{Code, Place, Text};
use std::alloc::Global;
use yaml_tree::{Entry, Node};

/// Whether a quote comes next.
pub fn is_quote(rest: &[char]) -> bool
    ensures { result ≡ spec.is_quote rest.now }
{
    begins('\'', rest) || begins('"', rest)
}

/// Whether a flow collection begins here.
pub fn is_bracket(rest: &[char]) -> bool
    ensures { result ≡ spec.is_bracket rest.now }
{
    begins('[', rest) || begins('{', rest)
}

/// The reading stops here for a code.
pub fn refused(code: Code, line: &Line<'_>, rest: &[char]) -> Halt
    requires { length rest.now ≤ length line.now.text.now }
    ensures { halt_view result ≡ Some (spec_line.refused code (spec_line.spot (line_view line.now) rest.now)) }
{
    Halt::Refused(code, spot(line, rest))
}

/// The line has no reading.
pub fn no_reading(line: &Line<'_>) -> Halt
    ensures { halt_view result ≡ Some (spec_line.syntax (line_view line.now)) }
{
    let place = Place {
        line: line.number,
        column: 1,
    };
    Halt::Refused(Code::SYNTAX, place)
}

/// The line's end is reached where something is open.
pub fn runs_out(alloc: Global, line: &Line<'_>) -> Halt
    ensures { halt_view result ≡ Some (unclosed line.now.number []) }
{
    Halt::Unclosed(line.number, Vec::new(alloc))
}

/// The same inside what opened at a place, unless memory runs out.
fn inside_open(place: Place, closing: char, halt: Halt) -> Halt
    ensures stop { IfSome (halt_view halt) (λ s. Reports result (spec.opened (place_view place) closing s)) }
    ensures memory { IsNone (halt_view halt) → IsNone (halt_view result) }
{
    match halt {
        Halt::Memory => Halt::Memory,
        Halt::Refused(code, inner) => Halt::Refused(code, inner),
        Halt::Unclosed(line, openings) => opened(place, closing, line, openings),
    }
}

fn opened(place: Place, closing: char, line: u32, openings: Vec<Opening>) -> Halt
    ensures { Reports result (unclosed line ((place_view place, closing) ∷ openings_view openings.items)) }
{
    let mut openings = openings;
    match openings.insert(0, Opening { place, closing }) {
        Ok(()) => Halt::Unclosed(line, openings),
        Err(_) => Halt::Memory,
    }
}

/// The text of the scalar in quotes that begins here.
#[tactic(auto, unfolding(crate::specs::Flow::quoted))]
pub fn quoted<'t>(
    alloc: Global,
    line: &Line<'_>,
    rest: &'t [char],
) -> Result<(Text, &'t [char]), Halt>
    requires within { length rest.now ≤ length line.now.text.now }
    requires quote { spec.is_quote rest.now ≡ true }
    ensures text { Gives text_front result (spec.quoted (line_view line.now) rest.now) }
    ensures shorter { IfOk result (λ p. length p.1.now < length rest.now) }
{
    let inside = behind(rest, 1);
    if begins('\'', rest) {
        let found = single(alloc, inside)?;
        quoted_as(alloc, line, rest, '\'', found)
    } else {
        let found = double(alloc, inside)?;
        quoted_as(alloc, line, rest, '"', found)
    }
}

fn quoted_as<'t>(
    alloc: Global,
    line: &Line<'_>,
    rest: &[char],
    closing: char,
    found: Quoted<'t>,
) -> Result<(Text, &'t [char]), Halt>
    requires within { length rest.now ≤ length line.now.text.now }
    requires found { IsShorter (drop 1 rest.now) found }
    ensures text { Gives text_front result (spec.quoted_as (line_view line.now) rest.now closing (quoted_view found.entry)) }
    ensures shorter { IfOk result (λ p. length p.1.now < length rest.now) }
{
    match found {
        Quoted::Closed(content, after) => Ok((content, after)),
        Quoted::Open => Err(opened(spot(line, rest), closing, line.number, Vec::new(alloc))),
        Quoted::BadEscape(count) => {
            Err(refused(Code::BAD_ESCAPE, line, behind(rest, count + 1)))
        }
    }
}

/// What stands behind blanks; nothing where the line ends here.
#[tactic(auto, using(crate::proofs::Nexts::next_is))]
fn next_of(rest: &[char]) -> Option<&[char]>
    ensures { MatchOption result (file.ends_line rest.now ≡ true) (λ next. IsNext rest.now next.now) }
{
    if ends_line(rest) {
        None
    } else {
        Some(skip_blanks(rest))
    }
}

/// A key in a flow map, and what is left behind its colon.
#[tactic(auto, unfolding(crate::specs::Flow::flow_key))]
fn flow_key<'t>(
    alloc: Global,
    line: &Line<'_>,
    rest: &'t [char],
) -> Result<(Text, &'t [char]), Halt>
    requires within { length rest.now ≤ length line.now.text.now }
    ensures key { Gives text_front result (spec.flow_key (line_view line.now) rest.now) }
    ensures shorter { IfOk result (λ p. length p.1.now < length rest.now) }
{
    if is_left_out(rest) {
        return Err(refused(Code::UNSUPPORTED, line, rest));
    }
    if is_quote(rest) {
        let (key, after) = quoted(alloc, line, rest)?;
        return behind_colon(alloc, line, key, after);
    }
    if !starts_plain(rest) {
        return Err(no_reading(line));
    }
    let (front, after) = plain_parts(true, rest);
    if is_merge(front) && begins(':', after) {
        return Err(refused(Code::UNSUPPORTED, line, rest));
    }
    behind_colon(alloc, line, Text::from_chars(alloc, front)?, after)
}

/// Whether the key is the one that merges maps, which is left out.
pub fn is_merge(key: &[char]) -> bool
    ensures { result ≡ bytes_eq key.now spec.merge }
{
    key == ['<', '<'].as_slice()
}

#[tactic(auto, unfolding(crate::specs::Flow::behind_colon))]
fn behind_colon<'t>(
    alloc: Global,
    line: &Line<'_>,
    key: Text,
    rest: &'t [char],
) -> Result<(Text, &'t [char]), Halt>
    ensures key { Gives text_front result (spec.behind_colon (line_view line.now) key rest.now) }
    ensures shorter { IfOk result (λ p. length p.1.now < length rest.now) }
{
    let next = skip_blanks(rest);
    if begins(':', next) {
        Ok((key, behind(next, 1)))
    } else if ends_line(rest) {
        Err(runs_out(alloc, line))
    } else {
        Err(no_reading(line))
    }
}

/// What is left behind an element's comma, or the closing bracket with what follows it.
#[tactic(auto, unfolding(crate::specs::Flow::after_element))]
fn after_element<'t>(
    alloc: Global,
    line: &Line<'_>,
    closing: char,
    rest: &'t [char],
) -> Result<&'t [char], Halt>
    ensures rest { Gives rest_view result (spec.after_element (line_view line.now) closing rest.now) }
    ensures within { IfOk result (λ r. length r.now ≤ length rest.now) }
{
    let next = skip_blanks(rest);
    if begins(',', next) {
        Ok(behind(next, 1))
    } else if begins(closing, next) {
        Ok(next)
    } else if ends_line(rest) {
        Err(runs_out(alloc, line))
    } else {
        Err(no_reading(line))
    }
}

/// A scalar in a flow collection.
#[tactic(auto, unfolding(crate::specs::Flow::flow_scalar))]
fn flow_scalar<'t>(
    alloc: Global,
    line: &Line<'_>,
    rest: &'t [char],
) -> Result<(Node, &'t [char]), Halt>
    requires within { length rest.now ≤ length line.now.text.now }
    requires solid { file.blank_or_end rest.now ≡ false }
    ensures node { Gives node_front result (spec.flow_scalar (line_view line.now) rest.now) }
    ensures shorter { IfOk result (λ p. length p.1.now < length rest.now) }
{
    if is_left_out(rest) {
        return Err(refused(Code::UNSUPPORTED, line, rest));
    }
    let place = spot(line, rest);
    if is_quote(rest) {
        let (content, after) = quoted(alloc, line, rest)?;
        return Ok((Node::text(place, content), after));
    }
    if !starts_plain(rest) {
        return Err(no_reading(line));
    }
    let (front, after) = plain_parts(true, rest);
    let kind = resolved(alloc, front)?;
    Ok((Node { place, kind }, after))
}

/// A key that isn't one of those seen, to which it's added.
#[tactic(auto, unfolding(crate::specs::Flow::fresh_key))]
fn fresh_key<'t>(
    alloc: Global,
    line: &Line<'_>,
    seen: &mut Seen,
    rest: &'t [char],
) -> Result<(Text, &'t [char]), Halt>
    requires within { length rest.now ≤ length line.now.text.now }
    ensures key { (ks : List (List ℕ)) → Knows seen.old ks → Gives text_front result (spec.fresh_key ks (line_view line.now) rest.now) }
    ensures seen { (ks : List (List ℕ)) → Knows seen.old ks → IfOk result (λ p. Knows seen.new (ks ++ p.0 ∷ [])) }
    ensures shorter { IfOk result (λ p. length p.1.now < length rest.now) }
{
    let (key, after) = flow_key(alloc, line, rest)?;
    let fresh = seen.insert(alloc, &key)?;
    if fresh {
        Ok((key, after))
    } else {
        Err(refused(Code::DUPLICATE_KEY, line, rest))
    }
}

/// A map at its first key's place, or at its bracket's where it's empty.
fn map_from(bracket: Place, entries: Vec<Entry>) -> Node
    ensures { node_view result ≡ spec.map_from (place_view bracket) (members_of (entries_view entries.items)) }
{
    let place = match entries.first() {
        None => bracket,
        Some(entry) => entry.place,
    };
    Node::map(place, entries)
}

/// An element of a flow sequence, and what is left behind its comma.
#[cycle(flow)]
#[tactic(auto, unfolding(crate::specs::Flow::flow_element))]
fn flow_element<'t>(
    alloc: Global,
    depth: usize,
    line: &Line<'_>,
    rest: &'t [char],
) -> Result<(Node, &'t [char]), Halt>
    requires within { length rest.now ≤ length line.now.text.now }
    requires solid { file.blank_or_end rest.now ≡ false }
    ensures element { Gives node_front result (spec.flow_element (spec.flow_node depth) (line_view line.now) rest.now) }
    ensures shorter { IfOk result (λ p. length p.1.now < length rest.now) }
{
    let (element, after) = flow_node(alloc, depth, line, rest)?;
    if begins(':', skip_blanks(after)) && !is_bracket(rest) {
        return Err(refused(Code::UNSUPPORTED, line, rest));
    }
    let after = after_element(alloc, line, ']', after)?;
    Ok((element, after))
}

/// The elements of a flow sequence behind its bracket.
#[cycle(flow)]
fn flow_elements<'t>(
    alloc: Global,
    depth: usize,
    line: &Line<'_>,
    rest: &'t [char],
) -> Result<(Vec<Node>, &'t [char]), Halt>
    requires within { length rest.now ≤ length line.now.text.now }
    ensures elements { (n : ℕ) → length rest.now < n → Gives elements_front result (spec.flow_elements (spec.flow_node depth) n (line_view line.now) rest.now) }
    ensures shorter { IfOk result (λ p. length p.1.now < length rest.now) }
{
    let mut elements = Vec::new(alloc);
    let mut rest = rest;
    'elements: loop {
        let Some(next) = next_of(rest) else {
            return Err(runs_out(alloc, line));
        };
        if begins(']', next) {
            return Ok((elements, behind(next, 1)));
        }
        let (element, after) = flow_element(alloc, depth, line, next)?;
        push_fitting(&mut elements, element)?;
        rest = after;
    }
}

/// The value behind a colon in a flow map.
#[cycle(flow)]
#[tactic(auto, unfolding(crate::specs::Flow::flow_value))]
fn flow_value<'t>(
    alloc: Global,
    depth: usize,
    line: &Line<'_>,
    home: Place,
    rest: &'t [char],
) -> Result<(Node, &'t [char]), Halt>
    requires within { length rest.now ≤ length line.now.text.now }
    ensures value { Gives node_front result (spec.flow_value (spec.flow_node depth) (line_view line.now) (place_view home) rest.now) }
    ensures shorter { IfOk result (λ p. length p.1.now ≤ length rest.now) }
{
    let Some(next) = next_of(rest) else {
        return Err(runs_out(alloc, line));
    };
    if begins(',', next) || begins('}', next) {
        return Ok((Node::null(home), next));
    }
    flow_node(alloc, depth, line, next)
}

/// An entry of a flow map, and what is left behind its comma.
#[cycle(flow)]
#[tactic(auto, unfolding(crate::specs::Flow::flow_entry))]
fn flow_entry<'t>(
    alloc: Global,
    depth: usize,
    line: &Line<'_>,
    seen: &mut Seen,
    rest: &'t [char],
) -> Result<(Entry, &'t [char]), Halt>
    requires within { length rest.now ≤ length line.now.text.now }
    ensures entry { (ks : List (List ℕ)) → Knows seen.old ks → Gives entry_front result (spec.flow_entry (spec.flow_node depth) ks (line_view line.now) rest.now) }
    ensures seen { (ks : List (List ℕ)) → Knows seen.old ks → IfOk result (λ p. Knows seen.new (ks ++ (entry_view p.0).key ∷ [])) }
    ensures shorter { IfOk result (λ p. length p.1.now < length rest.now) }
{
    let (key, after) = fresh_key(alloc, line, seen, rest)?;
    let place = spot(line, rest);
    let (value, after) = flow_value(alloc, depth, line, place, after)?;
    let after = after_element(alloc, line, '}', after)?;
    Ok((Entry { key, place, value }, after))
}

/// The entries of a flow map behind its bracket.
#[cycle(flow)]
fn flow_entries<'t>(
    alloc: Global,
    depth: usize,
    line: &Line<'_>,
    rest: &'t [char],
) -> Result<(Vec<Entry>, &'t [char]), Halt>
    requires within { length rest.now ≤ length line.now.text.now }
    ensures entries { (n : ℕ) → length rest.now < n → Gives entries_front result (spec.flow_members (spec.flow_node depth) n [] (line_view line.now) rest.now) }
    ensures shorter { IfOk result (λ p. length p.1.now < length rest.now) }
{
    let mut entries = Vec::new(alloc);
    let mut seen = Seen::new(alloc);
    let mut rest = rest;
    'entries: loop {
        let Some(next) = next_of(rest) else {
            return Err(runs_out(alloc, line));
        };
        if begins('}', next) {
            return Ok((entries, behind(next, 1)));
        }
        let (entry, after) = flow_entry(alloc, depth, line, &mut seen, next)?;
        push_fitting(&mut entries, entry)?;
        rest = after;
    }
}

/// The node of a flow collection that begins here, with collections at most so deep.
#[cycle(flow)]
pub fn flow_node<'t>(
    alloc: Global,
    depth: usize,
    line: &Line<'_>,
    rest: &'t [char],
) -> Result<(Node, &'t [char]), Halt>
    requires within { length rest.now ≤ length line.now.text.now }
    requires solid { file.blank_or_end rest.now ≡ false }
    ensures node { Gives node_front result (spec.flow_node depth (line_view line.now) rest.now) }
    ensures shorter { IfOk result (λ p. length p.1.now < length rest.now) }
{
    if !is_bracket(rest) {
        return flow_scalar(alloc, line, rest);
    }
    if depth == 0 {
        return Err(refused(Code::TOO_DEEP, line, rest));
    }
    let place = spot(line, rest);
    if begins('[', rest) {
        match flow_elements(alloc, depth - 1, line, behind(rest, 1)) {
            Ok((elements, after)) => Ok((Node::list(place, elements), after)),
            Err(halt) => Err(inside_open(place, ']', halt)),
        }
    } else {
        match flow_entries(alloc, depth - 1, line, behind(rest, 1)) {
            Ok((entries, after)) => Ok((map_from(place, entries), after)),
            Err(halt) => Err(inside_open(place, '}', halt)),
        }
    }
}
