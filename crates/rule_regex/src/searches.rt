//! Building the regular expressions of a rule.

ghost use Rattle.std.specs.Prelude.{◌≡◌, ◌∷◌, [], map, IfOk};
ghost use Rattle.rule_regex.specs.Building.{Builds, AreBuilt};
ghost use Rattle.rule_model.specs.Expressions.{rule_expressions};
ghost use Rattle.rule_model.specs.Plain.{rule_view};

use crate::unbuilt::is_built;
use query_lang::{BuildFault, Builder, Search};
use rule_detections::Expression;
use rule_model::Rule;
use sig_base::{Code, Fault, Place, Text, refused};
use std::alloc::Global;

/// Builds the regular expression of a text at a place. Where the builder refuses it, 48 is answered at the place.
pub fn build_at<B: Builder>(
    alloc: Global,
    builder: &mut B,
    text: Text,
    place: Place,
) -> Result<Search, Fault>
    ensures { Builds (λ search. search.text ≡ text) (record { place = place; text = text } ∷ []) (B.refused builder.old) (B.refused builder.new) result }
{
    match Search::build(alloc, builder, text) {
        Ok(search) => Ok(search),
        Err(BuildFault::Memory) => Err(Fault::Memory),
        Err(BuildFault::Syntax) => Err(refused(Code::REGEX_REFUSED, place)),
        Err(BuildFault::Refused) => Err(refused(Code::REGEX_REFUSED, place)),
    }
}

/// Builds each of these, in their order. Where the builder refuses one, 48 is answered at its place.
pub fn build_searches<B: Builder>(
    alloc: Global,
    builder: &mut B,
    expressions: &[Expression],
) -> Result<Vec<Search>, Fault>
    ensures { Builds (λ searches. map (λ search. search.text) searches.items ≡ map (λ e. e.text) expressions.now) expressions.now
        (B.refused builder.old) (B.refused builder.new) result }
{
    let mut searches = Vec::with_capacity(alloc, expressions.len())?;
    for expression in expressions {
        let text = Text::copy(alloc, expression.text.as_str())?;
        let search = build_at(alloc, builder, text, expression.place)?;
        searches.push(search)?;
    }
    Ok(searches)
}

/// Builds each of these as `build_searches` does, and keeps none.
fn build_all<B: Builder>(
    alloc: Global,
    builder: &mut B,
    expressions: &[Expression],
) -> Result<(), Fault>
    ensures builds { Builds (λ done. Unit {0}) expressions.now (B.refused builder.old) (B.refused builder.new) result }
    ensures built { IfOk result (λ done. AreBuilt (B.has_built builder.new) expressions.now) }
{
    for expression in expressions {
        if !is_built(alloc, builder, &expression.text)? {
            return Err(refused(Code::REGEX_REFUSED, expression.place));
        }
    }
    Ok(())
}

/// Builds the regular expressions that a rule's items search for, in their order. Where the builder refuses one, 48 is answered
/// at its item's place.
pub fn build_items<B: Builder>(alloc: Global, rule: &Rule, builder: &mut B) -> Result<(), Fault>
    ensures builds { Builds (λ done. Unit {0}) (rule_expressions (rule_view rule.now)) (B.refused builder.old) (B.refused builder.new) result }
    ensures built { IfOk result (λ done. AreBuilt (B.has_built builder.new) (rule_expressions (rule_view rule.now))) }
{
    let expressions = rule.expressions(alloc)?;
    build_all(alloc, builder, expressions.as_slice())
}
