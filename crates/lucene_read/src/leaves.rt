//! Leaves, token by token: `*:*`, or what is sought in a field.

ghost use Rattle.std.specs.Prelude.{◌≡◌, ◌<◌, ◌^◌, true, false, [], ◌∷◌, map, length, Some, codes, IfOk, IfErr};
ghost use Rattle.std.specs.Str.{chars};
ghost use Rattle.lucene_lang.specs.declared.query.Glyph.TheVariants.{Char};
ghost use Rattle.lucene_lang.specs.Query as query;
ghost use Rattle.lucene_lang.specs.Tokens as tokens;
ghost use Rattle.lucene_lang.specs.View.{atom_view, sought_view};
ghost use Rattle.lucene_read.specs.Known as found;
ghost use Rattle.lucene_read.specs.Steps as steps;
ghost use Rattle.lucene_read.specs.View as view;
ghost use Rattle.lucene_read.specs.View.{sort_view, place_view, name_view, partial_view, partial_if, leaf_view, next_if};

use crate::names::known_in;
use crate::numbers::{is_number, number_in};
use crate::partial::{Bound, Ill, Known, Leaf, Name, Next, Partial};
use event_schema::Field;
use lucene_lang::{Atom, Glyph, Glyphs, Sought, Written};
use lucene_scan::{Sort, text_of};
use sig_base::{Code, Fault, Place, Text};
use std::alloc::Global;

fn ill_of(name: Name, text_ill: bool, whole_ill: bool) -> Option<Ill>
    ensures { view.ill_if result ≡ found.ill_of name.known (place_view name.place) text_ill whole_ill }
{
    let Some(known) = name.known else {
        return Some(Ill {
            code: Code::LUCENE_UNKNOWN_FIELD,
            place: name.place,
        });
    };
    let ill = if known.whole { whole_ill } else { text_ill };
    if !ill {
        return None;
    }
    Some(Ill {
        code: Code::LUCENE_KIND,
        place: name.place,
    })
}

fn leaf_with(known: Option<Known>, ill: Option<Ill>, value: Sought) -> Leaf
    ensures { leaf_view result ≡ found.leaf_with known (view.ill_if ill) (sought_view value) }
{
    match (known, ill) {
        (Some(known), None) => Leaf {
            atom: Atom::Field {
                field: known.field,
                cased: known.cased,
                value,
            },
            ill: None,
        },
        (_, ill) => Leaf {
            atom: Atom::Everything,
            ill,
        },
    }
}

/// The leaf of this name and value, which is ill on a field of texts, or on one of whole numbers.
fn leaf_for(name: Name, text_ill: bool, whole_ill: bool, value: Sought) -> Leaf
    ensures { leaf_view result ≡ found.leaf_for (name_view name) text_ill whole_ill (sought_view value) }
{
    leaf_with(name.known, ill_of(name, text_ill, whole_ill), value)
}

fn glyph(c: &Written) -> Glyph
    ensures { result ≡ query.glyph c.now }
{
    match c {
        Written::Bare('*') => Glyph::Run,
        Written::Bare('?') => Glyph::One,
        Written::Bare(c) | Written::Escaped(c) => Glyph::Char(*c),
    }
}

fn glyphs(alloc: Global, run: &[Written]) -> Result<Glyphs, Fault>
    ensures ok { IfOk result (λ all. all ≡ query.glyphs run.now) }
    ensures err { IfErr result (λ e. e ≡ Fault.Memory) }
{
    let mut all = Glyphs::with_capacity(alloc, run.len())?;
    for c in run {
        all.push(glyph(c))?;
    }
    Ok(all)
}

fn plain_glyphs(alloc: Global, text: &Text) -> Result<Glyphs, Fault>
    ensures ok { IfOk result (λ all. all ≡ map (λ c. Char c) text.now) }
    ensures err { IfErr result (λ e. e ≡ Fault.Memory) }
{
    let mut all = Glyphs::new(alloc);
    for c in text.as_str().chars() {
        all.push(Glyph::Char(c))?;
    }
    Ok(all)
}

fn any_value(alloc: Global, name: Name) -> Result<Leaf, Fault>
    ensures ok { IfOk result (λ l. leaf_view l ≡ found.leaf_for (name_view name) false false (query.Term (Glyph.Run ∷ []))) }
    ensures err { IfErr result (λ e. e ≡ Fault.Memory) }
{
    let mut all = Glyphs::new(alloc);
    all.push(Glyph::Run)?;
    Ok(leaf_for(name, false, false, Sought::Term(all)))
}

fn wild_term(alloc: Global, name: Name, run: &[Written]) -> Result<Leaf, Fault>
    ensures ok { IfOk result (λ l. leaf_view l ≡ found.leaf_for (name_view name) false true (query.Term (query.glyphs run.now))) }
    ensures err { IfErr result (λ e. e ≡ Fault.Memory) }
{
    let all = glyphs(alloc, run)?;
    Ok(leaf_for(name, false, true, Sought::Term(all)))
}

fn exact_term(alloc: Global, name: Name, text: &Text) -> Result<Leaf, Fault>
    ensures ok { IfOk result (λ l. leaf_view l ≡ steps.exact_term (name_view name) text.now) }
    ensures err { IfErr result (λ e. e ≡ Fault.Memory) }
{
    let all = plain_glyphs(alloc, text)?;
    Ok(leaf_for(name, false, !is_number(text), Sought::Term(all)))
}

fn phrase(name: Name, text: Text) -> Leaf
    ensures { leaf_view result ≡ found.leaf_for (name_view name) false true (query.Phrase text) }
{
    leaf_for(name, false, true, Sought::Phrase(text))
}

fn is_far(bound: Bound) -> bool
    ensures { result ≡ found.is_far bound }
{
    matches!(bound, Bound::Far)
}

fn bound_number(bound: Bound) -> Option<i64>
    ensures { result ≡ found.bound_number bound }
{
    match bound {
        Bound::At(number) => Some(number),
        Bound::Unbounded | Bound::Far => None,
    }
}

fn ranged(name: Name, low_in: bool, low: Bound, high: Bound, high_in: bool) -> Leaf
    ensures { leaf_view result ≡ steps.ranged (name_view name) low_in low high high_in }
{
    let value = Sought::Range {
        low: bound_number(low),
        low_in,
        high: bound_number(high),
        high_in,
    };
    leaf_for(name, true, is_far(low) || is_far(high), value)
}

/// The end of a range that a token is.
fn bound_of(sort: &Sort) -> Option<Bound>
    ensures { result ≡ steps.bound_of (sort_view sort.now) }
{
    match sort {
        Sort::Star => Some(Bound::Unbounded),
        Sort::Decimal(text) => match number_in(text.as_str()) {
            Some(number) => Some(Bound::At(number)),
            None => Some(Bound::Far),
        },
        _ => None,
    }
}

/// The text of a run `TO`.
fn to_text(alloc: Global) -> Result<Text, Fault>
    ensures ok { IfOk result (λ text. text ≡ codes "TO") }
    ensures err { IfErr result (λ e. e ≡ Fault.Memory) }
{
    let mut text = Text::new(alloc);
    text.push_str("TO")?;
    Ok(text)
}

fn named(fields: &[Field], text: &Text, place: Place) -> Partial
    requires { length fields.now < 2 ^ 32 }
    ensures { Some (partial_view result) ≡ steps.named fields.now text.now (place_view place) }
{
    Partial::Named(Name {
        known: known_in(fields, text),
        place,
    })
}

/// What the first token of a leaf makes.
pub(crate) fn first(
    alloc: Global,
    fields: &[Field],
    sort: &Sort,
    place: Place,
) -> Result<Option<Partial>, Fault>
    requires { length fields.now < 2 ^ 32 }
    ensures ok { IfOk result (λ p. partial_if p ≡ steps.first fields.now (sort_view sort.now) (place_view place)) }
    ensures err { IfErr result (λ e. e ≡ Fault.Memory) }
{
    match sort {
        Sort::Star => Ok(Some(Partial::Starred)),
        Sort::To => {
            let text = to_text(alloc)?;
            Ok(Some(named(fields, &text, place)))
        }
        Sort::Decimal(text) => Ok(Some(named(fields, text, place))),
        Sort::Plain(run) => {
            let text = text_of(alloc, run)?;
            Ok(Some(named(fields, &text, place)))
        }
        _ => Ok(None),
    }
}

fn on_value(alloc: Global, name: Name, sort: &Sort) -> Result<Option<Next>, Fault>
    ensures ok { IfOk result (λ n. next_if n ≡ steps.on_value (name_view name) (sort_view sort.now)) }
    ensures err { IfErr result (λ e. e ≡ Fault.Memory) }
{
    match sort {
        Sort::Star => Ok(Some(Next::Leaf(any_value(alloc, name)?))),
        Sort::Wild(run) => Ok(Some(Next::Leaf(wild_term(alloc, name, run.as_slice())?))),
        Sort::To => {
            let text = to_text(alloc)?;
            Ok(Some(Next::Leaf(exact_term(alloc, name, &text)?)))
        }
        Sort::Decimal(text) => Ok(Some(Next::Leaf(exact_term(alloc, name, text)?))),
        Sort::Plain(run) => {
            let text = text_of(alloc, run)?;
            Ok(Some(Next::Leaf(exact_term(alloc, name, &text)?)))
        }
        Sort::Phrase(run) => {
            let text = text_of(alloc, run)?;
            Ok(Some(Next::Leaf(phrase(name, text))))
        }
        Sort::Opens(low_in) => Ok(Some(Next::Partial(Partial::Ranging(name, *low_in)))),
        _ => Ok(None),
    }
}

fn on_colon(partial: Partial, sort: &Sort) -> Option<Next>
    ensures { next_if result ≡ steps.on_colon (partial_view partial) (sort_view sort.now) }
{
    match sort {
        Sort::Colon => Some(Next::Partial(partial)),
        _ => None,
    }
}

fn on_star(sort: &Sort) -> Option<Next>
    ensures { next_if result ≡ steps.on_star (sort_view sort.now) }
{
    match sort {
        Sort::Star => Some(Next::Leaf(Leaf {
            atom: Atom::Everything,
            ill: None,
        })),
        _ => None,
    }
}

fn on_to(partial: Partial, sort: &Sort) -> Option<Next>
    ensures { next_if result ≡ steps.on_to (partial_view partial) (sort_view sort.now) }
{
    match sort {
        Sort::To => Some(Next::Partial(partial)),
        _ => None,
    }
}

fn on_low(name: Name, low_in: bool, bound: Option<Bound>) -> Option<Next>
    ensures { next_if result ≡ steps.on_low (name_view name) low_in bound }
{
    match bound {
        Some(low) => Some(Next::Partial(Partial::Low(name, low_in, low))),
        None => None,
    }
}

fn on_high(name: Name, low_in: bool, low: Bound, bound: Option<Bound>) -> Option<Next>
    ensures { next_if result ≡ steps.on_high (name_view name) low_in low bound }
{
    match bound {
        Some(high) => Some(Next::Partial(Partial::High(name, low_in, low, high))),
        None => None,
    }
}

fn on_close(name: Name, low_in: bool, low: Bound, high: Bound, sort: &Sort) -> Option<Next>
    ensures { next_if result ≡ steps.on_close (name_view name) low_in low high (sort_view sort.now) }
{
    match sort {
        Sort::Closes(high_in) => Some(Next::Leaf(ranged(name, low_in, low, high, *high_in))),
        _ => None,
    }
}

/// What a token makes of a leaf behind its first one.
#[tactic(auto, unfolding(crate::specs::Steps::go_on))]
pub(crate) fn go_on(alloc: Global, partial: Partial, sort: &Sort) -> Result<Option<Next>, Fault>
    ensures ok { IfOk result (λ n. next_if n ≡ steps.go_on (partial_view partial) (sort_view sort.now)) }
    ensures err { IfErr result (λ e. e ≡ Fault.Memory) }
{
    match partial {
        Partial::Start => Ok(None),
        Partial::Starred => Ok(on_colon(Partial::StarColon, sort)),
        Partial::StarColon => Ok(on_star(sort)),
        Partial::Named(name) => Ok(on_colon(Partial::Seeking(name), sort)),
        Partial::Seeking(name) => on_value(alloc, name, sort),
        Partial::Ranging(name, low_in) => Ok(on_low(name, low_in, bound_of(sort))),
        Partial::Low(name, low_in, low) => Ok(on_to(Partial::Upto(name, low_in, low), sort)),
        Partial::Upto(name, low_in, low) => Ok(on_high(name, low_in, low, bound_of(sort))),
        Partial::High(name, low_in, low, high) => Ok(on_close(name, low_in, low, high, sort)),
    }
}
