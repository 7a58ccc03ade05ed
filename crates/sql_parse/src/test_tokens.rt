//! What a token makes of a test that it goes on with.
ghost use Rattle.std.specs.Prelude.{◌≡◌, IfOk, codes, ◌++◌, ◌∷◌, []};
ghost use Rattle.std.specs.Str.{bytes_eq};
ghost use Rattle.sql_lang.specs.Tokens as tokens;
ghost use Rattle.sql_lang.specs.Grammar as syntax;
ghost use Rattle.sql_lang.specs.Machine as machine;
ghost use Rattle.sql_scan.specs.View.{sort_view};
ghost use Rattle.sql_lang.specs.View.{collate_view, op_view};
ghost use Rattle.sql_parse.specs.View.{option_view, right_view, literal_view, literals_view, partial_view};

use crate::partial::Partial;
use crate::syntax::{Leaf, Literal, Right};
use sig_base::Text;
use sql_lang::{Collate, SqlOp};
use sql_scan::{Keyword, Numeral, Sort};
use std::alloc::{AllocError, Global};

fn is_zero(w: &Text) -> bool
    ensures { result ≡ bytes_eq w.now (codes "0") }
{
    w.is("0")
}

fn is_one(w: &Text) -> bool
    ensures { result ≡ bytes_eq w.now (codes "1") }
{
    w.is("1")
}

fn constant(w: &Text) -> Option<Partial>
    ensures { option_view result ≡ machine.constant_of w.now }
{
    if is_zero(w) {
        Some(Partial::Complete(Leaf::Constant(false)))
    } else if is_one(w) {
        Some(Partial::Complete(Leaf::Constant(true)))
    } else {
        None
    }
}

pub fn first(sort: Sort) -> Option<Partial>
    ensures { option_view result ≡ machine.first (sort_view sort) }
{
    match sort {
        Sort::Name(name) => Some(Partial::Named(name)),
        Sort::Number(w) => constant(&w.text),
        _ => None,
    }
}

fn in_collated(name: Text, collate: Collate, negated: bool, sort: Sort) -> Option<Partial>
    ensures { option_view result ≡ machine.in_collated name (collate_view collate) negated (sort_view sort) }
{
    match sort {
        Sort::Word(Keyword::In) => Some(Partial::Among(name, collate, negated)),
        Sort::Word(Keyword::Between) => Some(Partial::Ranging(name, collate, negated)),
        _ => None,
    }
}

fn in_named(name: Text, negated: bool, sort: Sort) -> Option<Partial>
    ensures { option_view result ≡ machine.in_named name negated (sort_view sort) }
{
    match sort {
        Sort::Word(Keyword::Like) => Some(Partial::Liking(name, negated)),
        Sort::Word(Keyword::Glob) => Some(Partial::Globbing(name, negated)),
        Sort::Word(Keyword::Regexp) => Some(Partial::Searching(name, negated)),
        sort => in_collated(name, Collate::Unsaid, negated, sort),
    }
}

fn named(name: Text, sort: Sort) -> Option<Partial>
    ensures { option_view result ≡ machine.named name (sort_view sort) }
{
    match sort {
        Sort::Word(Keyword::Collate) => Some(Partial::Collating(name)),
        Sort::Word(Keyword::Is) => Some(Partial::Is(name)),
        Sort::Word(Keyword::Not) => Some(Partial::NamedNot(name)),
        Sort::Compare(op) => Some(Partial::Against(name, Collate::Unsaid, op)),
        sort => in_named(name, false, sort),
    }
}

fn collating(name: Text, sort: Sort) -> Option<Partial>
    ensures { option_view result ≡ machine.collation (machine.Collated name) (sort_view sort) }
{
    match sort {
        Sort::Word(Keyword::NoCase) => Some(Partial::Collated(name, Collate::NoCase)),
        Sort::Word(Keyword::Binary) => Some(Partial::Collated(name, Collate::Binary)),
        _ => None,
    }
}

fn collated(name: Text, collate: Collate, sort: Sort) -> Option<Partial>
    ensures { option_view result ≡ machine.collated name (collate_view collate) (sort_view sort) }
{
    match sort {
        Sort::Word(Keyword::Not) => Some(Partial::CollatedNot(name, collate)),
        Sort::Compare(op) => Some(Partial::Against(name, collate, op)),
        sort => in_collated(name, collate, false, sort),
    }
}

fn is(name: Text, sort: Sort) -> Option<Partial>
    ensures { option_view result ≡ machine.is name (sort_view sort) }
{
    match sort {
        Sort::Word(Keyword::Not) => Some(Partial::IsNot(name)),
        Sort::Word(Keyword::Null) => Some(Partial::Complete(Leaf::IsNull {
            name,
            negated: false,
        })),
        _ => None,
    }
}

fn is_not(name: Text, sort: Sort) -> Option<Partial>
    ensures { option_view result ≡ machine.is_not name (sort_view sort) }
{
    match sort {
        Sort::Word(Keyword::Null) => Some(Partial::Complete(Leaf::IsNull {
            name,
            negated: true,
        })),
        _ => None,
    }
}

fn against(name: Text, collate: Collate, op: SqlOp, sort: Sort) -> Option<Partial>
    ensures { option_view result ≡ machine.against (machine.Compared name (collate_view collate) (op_view op)) (sort_view sort) }
{
    match sort {
        Sort::Name(other) => Some(Partial::Compared(name, collate, op, Right::Name(other))),
        Sort::Text(text) => Some(Partial::Compared(
            name,
            collate,
            op,
            Right::Literal(Literal::Text(text)),
        )),
        Sort::Number(w) => Some(Partial::Compared(
            name,
            collate,
            op,
            Right::Literal(Literal::Number(w)),
        )),
        _ => None,
    }
}

fn compared(name: Text, collate: Collate, op: SqlOp, right: Right, sort: Sort) -> Option<Partial>
    ensures { option_view result ≡ machine.on_word tokens.COLLATE (machine.RightCollating name (collate_view collate) (op_view op) (right_view right)) (sort_view sort) }
{
    match sort {
        Sort::Word(Keyword::Collate) => Some(Partial::RightCollating(name, collate, op, right)),
        _ => None,
    }
}

fn right_collating(
    name: Text,
    left: Collate,
    op: SqlOp,
    right: Right,
    sort: Sort,
) -> Option<Partial>
    ensures { option_view result ≡ machine.collation (λ d. machine.Complete (syntax.compares name (collate_view left) (op_view op) (right_view right) d)) (sort_view sort) }
{
    match sort {
        Sort::Word(Keyword::NoCase) => Some(Partial::Complete(Leaf::Compare {
            name,
            left,
            op,
            right,
            collate: Collate::NoCase,
        })),
        Sort::Word(Keyword::Binary) => Some(Partial::Complete(Leaf::Compare {
            name,
            left,
            op,
            right,
            collate: Collate::Binary,
        })),
        _ => None,
    }
}

fn liking(name: Text, negated: bool, sort: Sort) -> Option<Partial>
    ensures { option_view result ≡ machine.on_text (machine.Liked name negated) (sort_view sort) }
{
    match sort {
        Sort::Text(pattern) => Some(Partial::Liked(name, negated, pattern)),
        _ => None,
    }
}

fn liked(name: Text, negated: bool, pattern: Text, sort: Sort) -> Option<Partial>
    ensures { option_view result ≡ machine.on_word tokens.ESCAPE (machine.Escaping name negated pattern) (sort_view sort) }
{
    match sort {
        Sort::Word(Keyword::Escape) => Some(Partial::Escaping(name, negated, pattern)),
        _ => None,
    }
}

fn escaping(name: Text, negated: bool, pattern: Text, sort: Sort) -> Option<Partial>
    ensures { option_view result ≡ machine.on_text (λ e. machine.Complete (syntax.like name negated pattern (Some e))) (sort_view sort) }
{
    match sort {
        Sort::Text(escape) => Some(Partial::Complete(Leaf::Like {
            name,
            negated,
            pattern,
            escape: Some(escape),
        })),
        _ => None,
    }
}

fn globbing(name: Text, negated: bool, sort: Sort) -> Option<Partial>
    ensures { option_view result ≡ machine.on_text (λ v. machine.Complete (syntax.glob name negated v)) (sort_view sort) }
{
    match sort {
        Sort::Text(pattern) => Some(Partial::Complete(Leaf::Glob {
            name,
            negated,
            pattern,
        })),
        _ => None,
    }
}

fn finding(name: Text, negated: bool, sort: Sort) -> Option<Partial>
    ensures { option_view result ≡ machine.on_text (λ v. machine.Complete (syntax.regexp name negated v)) (sort_view sort) }
{
    match sort {
        Sort::Text(pattern) => Some(Partial::Complete(Leaf::Regexp {
            name,
            negated,
            pattern,
        })),
        _ => None,
    }
}

fn among(alloc: Global, name: Text, collate: Collate, negated: bool, sort: Sort) -> Option<Partial>
    ensures { option_view result ≡ machine.on_opening (machine.Listing name (collate_view collate) negated []) (sort_view sort) }
{
    match sort {
        Sort::Opening => Some(Partial::Listing(name, collate, negated, Vec::new(alloc))),
        _ => None,
    }
}

fn listing(
    name: Text,
    collate: Collate,
    negated: bool,
    before: Vec<Literal>,
    sort: Sort,
) -> Option<Partial>
    ensures { option_view result ≡ machine.on_literal (machine.Listed name (collate_view collate) negated (literals_view before.items)) (sort_view sort) }
{
    match sort {
        Sort::Text(text) => Some(Partial::Listed(
            name,
            collate,
            negated,
            before,
            Literal::Text(text),
        )),
        Sort::Number(w) => Some(Partial::Listed(
            name,
            collate,
            negated,
            before,
            Literal::Number(w),
        )),
        _ => None,
    }
}

fn with_literal(before: Vec<Literal>, last: Literal) -> Result<Vec<Literal>, AllocError>
    ensures { IfOk result (λ all. literals_view all.items ≡ literals_view before.items ++ literal_view last ∷ []) }
{
    let mut all = before;
    all.push(last)?;
    Ok(all)
}

fn listed(
    name: Text,
    collate: Collate,
    negated: bool,
    before: Vec<Literal>,
    last: Literal,
    sort: Sort,
) -> Result<Option<Partial>, AllocError>
    ensures { IfOk result (λ o. option_view o ≡ machine.listed name (collate_view collate) negated (literals_view before.items) (literal_view last) (sort_view sort)) }
{
    match sort {
        Sort::Comma => {
            let all = with_literal(before, last)?;
            Ok(Some(Partial::Listing(name, collate, negated, all)))
        }
        Sort::Closing => Ok(Some(Partial::Complete(Leaf::OneOf {
            name,
            collate,
            negated,
            before,
            last,
        }))),
        _ => Ok(None),
    }
}

fn ranging(name: Text, collate: Collate, negated: bool, sort: Sort) -> Option<Partial>
    ensures { option_view result ≡ machine.on_number (machine.Low name (collate_view collate) negated) (sort_view sort) }
{
    match sort {
        Sort::Number(low) => Some(Partial::Low(name, collate, negated, low)),
        _ => None,
    }
}

fn low(name: Text, collate: Collate, negated: bool, low: Numeral, sort: Sort) -> Option<Partial>
    ensures { option_view result ≡ machine.on_word tokens.AND (machine.High name (collate_view collate) negated low.text) (sort_view sort) }
{
    match sort {
        Sort::Word(Keyword::And) => Some(Partial::High(name, collate, negated, low)),
        _ => None,
    }
}

fn high(name: Text, collate: Collate, negated: bool, low: Numeral, sort: Sort) -> Option<Partial>
    ensures { option_view result ≡ machine.on_number (λ v. machine.Complete (syntax.between name (collate_view collate) negated low.text v)) (sort_view sort) }
{
    match sort {
        Sort::Number(high) => Some(Partial::Complete(Leaf::Between {
            name,
            collate,
            negated,
            low,
            high,
        })),
        _ => None,
    }
}

/// The test behind one more token, or none where it doesn't go on with it.
#[tactic(auto, unfolding(sql_lang::specs::Machine::go_on))]
pub fn go_on(alloc: Global, partial: Partial, sort: Sort) -> Result<Option<Partial>, AllocError>
    ensures { IfOk result (λ o. option_view o ≡ machine.go_on (partial_view partial) (sort_view sort)) }
{
    match partial {
        Partial::Start => Ok(first(sort)),
        Partial::Named(name) => Ok(named(name, sort)),
        Partial::Collating(name) => Ok(collating(name, sort)),
        Partial::Collated(name, collate) => Ok(collated(name, collate, sort)),
        Partial::Is(name) => Ok(is(name, sort)),
        Partial::IsNot(name) => Ok(is_not(name, sort)),
        Partial::Against(name, collate, op) => Ok(against(name, collate, op, sort)),
        Partial::Compared(name, collate, op, right) => Ok(compared(name, collate, op, right, sort)),
        Partial::RightCollating(name, collate, op, right) => Ok(right_collating(
            name, collate, op, right, sort,
        )),
        Partial::NamedNot(name) => Ok(in_named(name, true, sort)),
        Partial::CollatedNot(name, collate) => Ok(in_collated(name, collate, true, sort)),
        Partial::Liking(name, negated) => Ok(liking(name, negated, sort)),
        Partial::Liked(name, negated, pattern) => Ok(liked(name, negated, pattern, sort)),
        Partial::Escaping(name, negated, pattern) => Ok(escaping(name, negated, pattern, sort)),
        Partial::Globbing(name, negated) => Ok(globbing(name, negated, sort)),
        Partial::Searching(name, negated) => Ok(finding(name, negated, sort)),
        Partial::Among(name, collate, negated) => Ok(among(alloc, name, collate, negated, sort)),
        Partial::Listing(name, collate, negated, before) => Ok(listing(
            name, collate, negated, before, sort,
        )),
        Partial::Listed(name, collate, negated, before, last) => listed(
            name, collate, negated, before, last, sort,
        ),
        Partial::Ranging(name, collate, negated) => Ok(ranging(name, collate, negated, sort)),
        Partial::Low(name, collate, negated, from) => Ok(low(name, collate, negated, from, sort)),
        Partial::High(name, collate, negated, from) => Ok(high(name, collate, negated, from, sort)),
        Partial::Complete(_) | Partial::Closed(_) => Ok(None),
    }
}
