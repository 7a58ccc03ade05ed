//! What a test asks of columns of which kinds; a name that is no column's is of no kind.

ghost use Rattle.std.specs.Prelude.{◌≡◌, ◌||◌, ◌&&◌, map};
ghost use Rattle.std.specs.List.{list_any};
ghost use Rattle.sql_lang.specs.Faults as faults;
ghost use Rattle.sql_parse.specs.View.{literal_view, literals_view};
ghost use Rattle.sql_lang.specs.View.{collate_view, op_view};
ghost use Rattle.sql_check.specs.Kinds as kinds;

use event_schema::FieldKind;
use sql_lang::{Collate, SqlOp};
use sql_parse::Literal;

pub(crate) fn is_whole(kind: Option<FieldKind>) -> bool
    ensures { result ≡ faults.is_whole kind }
{
    matches!(kind, Some(FieldKind::Whole))
}

pub(crate) fn is_not_whole(kind: Option<FieldKind>) -> bool
    ensures { result ≡ faults.is_not_whole kind }
{
    matches!(kind, Some(FieldKind::Text | FieldKind::Address))
}

fn is_said(collate: Collate) -> bool
    ensures { result ≡ faults.is_said (collate_view collate) }
{
    match collate {
        Collate::Unsaid => false,
        Collate::NoCase | Collate::Binary => true,
    }
}

pub(crate) fn is_order(op: SqlOp) -> bool
    ensures { result ≡ faults.is_order (op_view op) }
{
    match op {
        SqlOp::Eq | SqlOp::Ne => false,
        SqlOp::Lt | SqlOp::Lte | SqlOp::Gt | SqlOp::Gte => true,
    }
}

fn is_text(literal: &Literal) -> bool
    ensures { result ≡ faults.is_text (literal_view literal.now) }
{
    match literal {
        Literal::Text(_) => true,
        Literal::Number(_) => false,
    }
}

/// A text against a whole column, a number against another one.
pub(crate) fn is_ill_literal(kind: Option<FieldKind>, literal: &Literal) -> bool
    ensures { result ≡ kinds.is_ill_literal kind (literal_view literal.now) }
{
    match literal {
        Literal::Text(_) => is_whole(kind),
        Literal::Number(_) => is_not_whole(kind),
    }
}

/// Whether some of these literals is ill against a column of this kind.
pub(crate) fn some_ill(kind: Option<FieldKind>, literals: &[Literal]) -> bool
    ensures { result ≡ list_any (kinds.is_ill_literal kind) (literals_view literals.now) }
{
    for literal in literals {
        if is_ill_literal(kind, literal) {
            return true;
        }
    }
    false
}

/// COLLATE on a whole column.
pub(crate) fn is_ill_collate(kind: Option<FieldKind>, collate: Collate) -> bool
    ensures { result ≡ kinds.is_ill_collate kind (collate_view collate) }
{
    is_said(collate) && is_whole(kind)
}

/// A column on the right of a sign, against a column of this kind on its left.
pub(crate) fn is_ill_column(
    kind: Option<FieldKind>,
    op: SqlOp,
    right: Option<FieldKind>,
    collate: Collate,
) -> bool
    ensures { result ≡ kinds.is_ill_column kind (op_view op) right (collate_view collate) }
{
    is_ill_collate(right, collate)
        || is_order(op) && is_not_whole(right)
        || is_whole(kind) && is_not_whole(right)
        || is_not_whole(kind) && is_whole(right)
}

/// A literal on the right of a sign, against a column of this kind on its left.
pub(crate) fn is_ill_value(kind: Option<FieldKind>, literal: &Literal, collate: Collate) -> bool
    ensures { result ≡ kinds.is_ill_value kind (literal_view literal.now) (collate_view collate) }
{
    is_said(collate) && !is_text(literal) || is_ill_literal(kind, literal)
}
