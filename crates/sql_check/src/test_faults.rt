//! The first fault of one test.

ghost use Rattle.std.specs.Prelude.{◌≡◌, ◌+◌, ◌||◌, ◌&&◌, ◌++◌, ◌∷◌, []};
ghost use Rattle.std.specs.List.{list_any};
ghost use Rattle.query_tokens.specs.Places.{nth, code_at, code_at_if};
ghost use Rattle.sql_lang.specs.Faults as faults;
ghost use Rattle.sql_lang.specs.Grammar as grammar;
ghost use Rattle.sql_lang.specs.Names as names;
ghost use Rattle.sql_parse.specs.View.{leaf_view, literal_view, literals_view, right_view};
ghost use Rattle.sql_lang.specs.View.{collate_view, op_view};
ghost use Rattle.query_tokens.specs.PlaceView.{place_view};
ghost use Rattle.sql_scan.specs.View.{places_view};
ghost use Rattle.sql_check.specs.Kinds as kinds;
ghost use Rattle.sql_check.specs.Refused.{refusal_of, refusal_if, first_fault};

use crate::columns::Columns;
use crate::glob::is_bad_glob;
use crate::kinds::{
    is_ill_collate, is_ill_column, is_ill_literal, is_ill_value, is_not_whole, is_order, some_ill,
};
use crate::like::{is_bad_like, one_character};
use crate::token_places::{collate_count, not_count, place_at};
use event_schema::FieldKind;
use sig_base::{Code, Detail, Place, Refusal, Text};
use sql_lang::{Collate, SqlOp};
use sql_parse::{Leaf, Literal, Right};

fn refusal(code: Code, place: Place) -> Refusal
    ensures { result ≡ refusal_of (code_at code (place_view place)) }
{
    Refusal {
        code,
        place,
        detail: Detail::None,
    }
}

/// What is wrong with the name that a test begins with, or with the test's kinds.
fn judge_name(kind: Option<FieldKind>, ill: bool, places: &[Place]) -> Option<Refusal>
    ensures { result ≡ refusal_if (first_fault (code_at_if (faults.is_unknown kind) 122 (nth (places_view places.now) 0) ++ code_at_if ill 123 (nth (places_view places.now) 0))) }
{
    if kind.is_none() {
        return Some(refusal(Code::SQL_UNKNOWN_COLUMN, place_at(places, 0)));
    }
    if ill {
        return Some(refusal(Code::SQL_KIND, place_at(places, 0)));
    }
    None
}

/// The refusal with this code, if so.
fn refusal_at(bad: bool, code: Code, place: Place) -> Option<Refusal>
    ensures { result ≡ refusal_if (first_fault (code_at_if bad code (place_view place))) }
{
    if bad {
        return Some(refusal(code, place));
    }
    None
}

/// Whether a side doesn't stand on the right of a sign, against a column of this kind.
fn is_ill_right(
    columns: &Columns<'_>,
    kind: Option<FieldKind>,
    op: SqlOp,
    right: &Right,
    collate: Collate,
) -> bool
    ensures { result ≡ kinds.is_ill_side columns.now kind (op_view op) (right_view right.now) (collate_view collate) }
{
    match right {
        Right::Name(name) => is_ill_column(kind, op, columns.kind(name), collate),
        Right::Literal(literal) => is_ill_value(kind, literal, collate),
    }
}

/// Whether a comparison is ill whose left side is a column of this kind.
fn is_ill_compare(
    columns: &Columns<'_>,
    kind: Option<FieldKind>,
    left: Collate,
    op: SqlOp,
    right: &Right,
    collate: Collate,
) -> bool
    ensures { result ≡ (kinds.is_ill_collate kind (collate_view left) || faults.is_order (op_view op) && faults.is_not_whole kind
        || kinds.is_ill_side columns.now kind (op_view op) (right_view right.now) (collate_view collate)) }
{
    is_ill_collate(kind, left)
        || is_order(op) && is_not_whole(kind)
        || is_ill_right(columns, kind, op, right, collate)
}

/// Whether a list is ill against a column of this kind.
fn is_ill_list(
    kind: Option<FieldKind>,
    collate: Collate,
    before: &[Literal],
    last: &Literal,
) -> bool
    ensures { result ≡ (kinds.is_ill_collate kind (collate_view collate)
        || (list_any (kinds.is_ill_literal kind) (literals_view before.now) || kinds.is_ill_literal kind (literal_view last.now))) }
{
    is_ill_collate(kind, collate) || some_ill(kind, before) || is_ill_literal(kind, last)
}

/// A name on the right that is no column's.
fn judge_right(columns: &Columns<'_>, right: &Right, place: Place) -> Option<Refusal>
    ensures { result ≡ refusal_if (first_fault (faults.right_faults columns.now (right_view right.now) (place_view place))) }
{
    match right {
        Right::Name(name) => refusal_at(
            columns.kind(name).is_none(),
            Code::SQL_UNKNOWN_COLUMN,
            place,
        ),
        Right::Literal(_) => None,
    }
}

fn judge_compare(
    columns: &Columns<'_>,
    name: &Text,
    left: Collate,
    op: SqlOp,
    right: &Right,
    collate: Collate,
    places: &[Place],
) -> Option<Refusal>
    ensures { result ≡ refusal_if (first_fault (faults.test_faults columns.now [] (grammar.compares name.now (collate_view left) (op_view op) (right_view right.now) (collate_view collate)) (places_view places.now))) }
{
    let kind = columns.kind(name);
    let ill = is_ill_compare(columns, kind, left, op, right, collate);
    if let Some(refusal) = judge_name(kind, ill, places) {
        return Some(refusal);
    }
    judge_right(columns, right, place_at(places, 2 + collate_count(left)))
}

/// What is wrong with a pattern of LIKE at the first place, and its escape at the second.
fn judge_escape(
    pattern: &Text,
    escape: &Option<Text>,
    place: Place,
    behind: Place,
) -> Option<Refusal>
    ensures { result ≡ refusal_if (first_fault (faults.like_faults pattern.now escape.now (place_view place) (place_view behind))) }
{
    let Some(escape) = escape else {
        return None;
    };
    match one_character(escape) {
        Some(c) => refusal_at(is_bad_like(c, pattern), Code::SQL_PATTERN, place),
        None => Some(refusal(Code::SQL_PATTERN, behind)),
    }
}

fn judge_like(
    columns: &Columns<'_>,
    name: &Text,
    negated: bool,
    pattern: &Text,
    escape: &Option<Text>,
    places: &[Place],
) -> Option<Refusal>
    ensures { result ≡ refusal_if (first_fault (faults.test_faults columns.now [] (grammar.like name.now negated pattern.now escape.now) (places_view places.now))) }
{
    if let Some(refusal) = judge_name(columns.kind(name), false, places) {
        return Some(refusal);
    }
    let count = not_count(negated);
    let place = place_at(places, 2 + count);
    let behind = place_at(places, 4 + count);
    judge_escape(pattern, escape, place, behind)
}

fn judge_glob(
    columns: &Columns<'_>,
    name: &Text,
    negated: bool,
    pattern: &Text,
    places: &[Place],
) -> Option<Refusal>
    ensures { result ≡ refusal_if (first_fault (faults.test_faults columns.now [] (grammar.glob name.now negated pattern.now) (places_view places.now))) }
{
    if let Some(refusal) = judge_name(columns.kind(name), false, places) {
        return Some(refusal);
    }
    let place = place_at(places, 2 + not_count(negated));
    refusal_at(is_bad_glob(pattern), Code::SQL_PATTERN, place)
}

fn judge_list(
    columns: &Columns<'_>,
    name: &Text,
    collate: Collate,
    before: &[Literal],
    last: &Literal,
    places: &[Place],
) -> Option<Refusal>
    ensures { result ≡ refusal_if (first_fault (faults.name_faults columns.now name.now (faults.is_ill_left columns.now name.now (collate_view collate)
        || list_any (faults.is_ill_literal columns.now name.now) (literals_view before.now ++ literal_view last.now ∷ [])) (nth (places_view places.now) 0))) }
{
    let kind = columns.kind(name);
    let ill = is_ill_list(kind, collate, before, last);
    judge_name(kind, ill, places)
}

fn judge_between(
    columns: &Columns<'_>,
    name: &Text,
    collate: Collate,
    places: &[Place],
) -> Option<Refusal>
    ensures { result ≡ refusal_if (first_fault (faults.name_faults columns.now name.now (faults.is_ill_left columns.now name.now (collate_view collate) || faults.not_whole columns.now name.now) (nth (places_view places.now) 0))) }
{
    let kind = columns.kind(name);
    let ill = is_ill_collate(kind, collate) || is_not_whole(kind);
    judge_name(kind, ill, places)
}

/// The first refusal of a test whose tokens stand at these places: 122, 123 or 125. Nothing is refused for a regular expression.
pub fn judge(columns: &Columns<'_>, leaf: &Leaf, places: &[Place]) -> Option<Refusal>
    ensures { result ≡ refusal_if (first_fault (faults.test_faults columns.now [] (leaf_view leaf.now) (places_view places.now))) }
{
    match leaf {
        Leaf::Constant(_) => None,
        Leaf::IsNull { name, .. } | Leaf::Regexp { name, .. } => {
            judge_name(columns.kind(name), false, places)
        }
        Leaf::Compare {
            name,
            left,
            op,
            right,
            collate,
        } => judge_compare(columns, name, *left, *op, right, *collate, places),
        Leaf::Like {
            name,
            negated,
            pattern,
            escape,
        } => judge_like(columns, name, *negated, pattern, escape, places),
        Leaf::Glob {
            name,
            negated,
            pattern,
        } => judge_glob(columns, name, *negated, pattern, places),
        Leaf::OneOf {
            name,
            collate,
            before,
            last,
            ..
        } => judge_list(columns, name, *collate, before, last, places),
        Leaf::Between { name, collate, .. } => judge_between(columns, name, *collate, places),
    }
}
