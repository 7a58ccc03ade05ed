//! Characters and signs.

ghost use Rattle.std.specs.Prelude.{◌≡◌};
ghost use Rattle.sql_lang.specs.Tokens as tokens;
ghost use Rattle.sql_scan.specs.View.{sort_view, op_option_view};

use crate::token::Sort;
use sql_lang::SqlOp;

pub(crate) fn is_blank(c: char) -> bool
    ensures { result ≡ tokens.is_blank c }
{
    c == ' ' || c == '\t' || c == '\n' || c == '\r' || c == '\u{c}'
}

pub(crate) fn is_run_char(c: char) -> bool
    ensures { result ≡ tokens.is_run_char c }
{
    c.is_ascii_alphanumeric() || c == '_'
}

pub(crate) fn begins_sign(c: char) -> bool
    ensures { result ≡ tokens.begins_sign c }
{
    c == '=' || c == '<' || c == '>' || c == '!'
}

pub(crate) fn sign_of(c: char) -> Sort
    ensures { sort_view result ≡ tokens.sign_of c }
{
    if c == '(' {
        Sort::Opening
    } else if c == ')' {
        Sort::Closing
    } else if c == ',' {
        Sort::Comma
    } else if c == '*' {
        Sort::Star
    } else if c == ';' {
        Sort::Semicolon
    } else if c == '=' {
        Sort::Compare(SqlOp::Eq)
    } else if c == '<' {
        Sort::Compare(SqlOp::Lt)
    } else if c == '>' {
        Sort::Compare(SqlOp::Gt)
    } else {
        Sort::Other
    }
}

pub(crate) fn long_sign(c: char, d: char) -> Option<SqlOp>
    ensures { op_option_view result ≡ tokens.long_sign c d }
{
    if d == '=' {
        if c == '=' {
            Some(SqlOp::Eq)
        } else if c == '!' {
            Some(SqlOp::Ne)
        } else if c == '<' {
            Some(SqlOp::Lte)
        } else {
            Some(SqlOp::Gte)
        }
    } else if c == '<' && d == '>' {
        Some(SqlOp::Ne)
    } else {
        None
    }
}
