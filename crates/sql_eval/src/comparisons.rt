//! Comparisons.

ghost use Rattle.std.specs.Prelude.{◌≡◌};
ghost use Rattle.std.specs.Str.{chars, bytes_eq};
ghost use Rattle.sql_lang.specs.Meaning as meaning;
ghost use Rattle.sql_lang.specs.View.{collate_view, op_view};
ghost use Rattle.sql_eval.specs.View.{truth_view, seen_view, seen_option_view};

use crate::seen::Seen;
use crate::truth::{Truth, truth_of};
use sig_base::same_folded;
use sql_lang::{Collate, SqlOp};

fn same_text(a: &str, b: &str) -> bool
    ensures { result ≡ bytes_eq (chars a.now) (chars b.now) }
{
    a == b
}

fn texts_equal(collate: Collate, a: &str, b: &str) -> bool
    ensures { result ≡ meaning.texts_equal (collate_view collate) (chars a.now) (chars b.now) }
{
    match collate {
        Collate::NoCase => same_folded(a, b),
        Collate::Unsaid => same_text(a, b),
        Collate::Binary => same_text(a, b),
    }
}

fn texts_are(collate: Collate, op: SqlOp, a: &str, b: &str) -> bool
    ensures { result ≡ meaning.texts_are (collate_view collate) (op_view op) (chars a.now) (chars b.now) }
{
    match op {
        SqlOp::Eq => texts_equal(collate, a, b),
        SqlOp::Ne => !texts_equal(collate, a, b),
        _ => false,
    }
}

fn wholes_are(op: SqlOp, a: i64, b: i64) -> bool
    ensures { result ≡ meaning.wholes_are (op_view op) a b }
{
    match op {
        SqlOp::Eq => a <= b && b <= a,
        SqlOp::Ne => !(a <= b && b <= a),
        SqlOp::Lt => a < b,
        SqlOp::Lte => a <= b,
        SqlOp::Gt => b < a,
        SqlOp::Gte => b <= a,
    }
}

fn values_are(collate: Collate, op: SqlOp, a: Seen, b: Seen) -> bool
    ensures { result ≡ meaning.values_are (collate_view collate) (op_view op) (seen_view a.entry) (seen_view b.entry) }
{
    match (a, b) {
        (Seen::Text(a), Seen::Text(b)) => texts_are(collate, op, a, b),
        (Seen::Whole(a), Seen::Whole(b)) => wholes_are(op, a, b),
        (Seen::Text(_), Seen::Whole(_)) => false,
        (Seen::Whole(_), Seen::Text(_)) => false,
    }
}

pub fn chosen(left: Collate, right: Collate) -> Collate
    ensures { collate_view result ≡ meaning.chosen (collate_view left) (collate_view right) }
{
    match left {
        Collate::Unsaid => right,
        Collate::NoCase => Collate::NoCase,
        Collate::Binary => Collate::Binary,
    }
}

/// Unknown where a side has no value.
pub fn compared(collate: Collate, op: SqlOp, a: Option<Seen>, b: Option<Seen>) -> Truth
    ensures { truth_view result ≡ meaning.compared (collate_view collate) (op_view op) (seen_option_view a.entry) (seen_option_view b.entry) }
{
    let Some(a) = a else {
        return Truth::Unknown;
    };
    let Some(b) = b else {
        return Truth::Unknown;
    };
    truth_of(values_are(collate, op, a, b))
}
