//! The rule of a seed.

ghost use Rattle.std.specs.Prelude.{◌≡◌, true, false, IfOk, IfErr};
ghost use Rattle.sig_base.specs.Texts.{is_ascii};
ghost use Rattle.rule_head.specs.Plain.{head_view};
ghost use Rattle.sig_conditions.specs.Formulas.{form_view};
ghost use Rattle.rule_detections.specs.declared.test.Test.TheVariants as tests;
ghost use Rattle.rule_model.specs.Plain.{rule_view};
ghost use Rattle.generate_run.specs.Rules as spec;

use crate::draws::{first_draw, second_draw, third_draw};
use crate::words::{ascii_text, word};
use modifier_words::{Joined, Op};
use rule_detections::{
    Alternative, Alternatives, Detection, Detections, Fields, Item, Test, Tests, Values,
};
use rule_head::{Head, LogSource};
use rule_model::Rule;
use sig_base::{Fault, Place, Texts};
use sig_conditions::Formula;
use sig_strings::{Part, Pattern, SharedPattern};
use std::alloc::Global;

/// The pattern of a text without wildcards.
fn literal(alloc: Global, text: &str) -> Result<Pattern, Fault>
    requires { is_ascii text.now ≡ true }
    ensures ok { IfOk result (λ pattern. pattern ≡ spec.literal text.now) }
    ensures err { IfErr result (λ e. e ≡ Fault.Memory) }
{
    let mut parts = Vec::new(alloc);
    let bytes = text.as_bytes();
    for byte in bytes {
        parts.push(Part::Char(*byte as char))?;
    }
    Ok(Pattern::of_parts(parts))
}

fn fits(alloc: Global, pattern: Pattern) -> Result<Test, Fault>
    ensures ok { IfOk result (λ test. test ≡ tests.Fits pattern false) }
    ensures err { IfErr result (λ e. e ≡ Fault.Memory) }
{
    let pattern = SharedPattern::share(alloc, pattern)?;
    Ok(Test::Fits {
        pattern,
        cased: false,
    })
}

fn is_text(alloc: Global, text: &str) -> Result<Test, Fault>
    requires { is_ascii text.now ≡ true }
    ensures ok { IfOk result (λ test. test ≡ spec.is_text text.now) }
    ensures err { IfErr result (λ e. e ≡ Fault.Memory) }
{
    let pattern = literal(alloc, text)?;
    fits(alloc, pattern)
}

fn has_text(alloc: Global, text: &str) -> Result<Test, Fault>
    requires { is_ascii text.now ≡ true }
    ensures ok { IfOk result (λ test. test ≡ spec.has_text text.now) }
    ensures err { IfErr result (λ e. e ≡ Fault.Memory) }
{
    let pattern = literal(alloc, text)?;
    let pattern = pattern.with_run_before()?;
    let pattern = pattern.with_run_after()?;
    fits(alloc, pattern)
}

/// An item that asks one test of one field.
fn item(alloc: Global, field: &str, test: Test) -> Result<Item, Fault>
    requires { is_ascii field.now ≡ true }
    ensures ok { IfOk result (λ item. item ≡ spec.item field.now test) }
    ensures err { IfErr result (λ e. e ≡ Fault.Memory) }
{
    let mut names = Texts::new(alloc);
    names.push(ascii_text(alloc, field)?)?;
    let mut tests = Tests::new(alloc);
    tests.push(test)?;
    let mut values = Values::new(alloc);
    values.push(tests)?;
    Ok(Item {
        fields: Fields::Names(names),
        tests: values,
        joined: Joined::Any,
        place: Place::START,
    })
}

/// A detection that asks one test of one field.
fn asks(alloc: Global, name: &str, field: &str, test: Test) -> Result<Detection, Fault>
    requires name { is_ascii name.now ≡ true }
    requires field { is_ascii field.now ≡ true }
    ensures ok { IfOk result (λ detection. detection ≡ spec.asks name.now field.now test) }
    ensures err { IfErr result (λ e. e ≡ Fault.Memory) }
{
    let mut items = Alternative::new(alloc);
    items.push(item(alloc, field, test)?)?;
    let mut alternatives = Alternatives::new(alloc);
    alternatives.push(items)?;
    Ok(Detection {
        name: ascii_text(alloc, name)?,
        alternatives,
        place: Place::START,
    })
}

/// `not sel2 and sel3`.
fn second_part(alloc: Global) -> Result<Formula, Fault>
    ensures ok { IfOk result (λ formula. form_view formula ≡ spec.second_part) }
    ensures err { IfErr result (λ e. e ≡ Fault.Memory) }
{
    let mut parts = Vec::new(alloc);
    parts.push(Formula::Not(Box::new(alloc, Formula::Detection(1))?))?;
    parts.push(Formula::Detection(2))?;
    Ok(Formula::And(parts))
}

/// `sel1 or not sel2 and sel3`.
fn condition(alloc: Global) -> Result<Formula, Fault>
    ensures ok { IfOk result (λ formula. form_view formula ≡ spec.condition) }
    ensures err { IfErr result (λ e. e ≡ Fault.Memory) }
{
    let mut parts = Vec::new(alloc);
    parts.push(Formula::Detection(0))?;
    parts.push(second_part(alloc)?)?;
    Ok(Formula::Or(parts))
}

fn head(alloc: Global) -> Result<Head, Fault>
    ensures ok { IfOk result (λ head. head_view head ≡ spec.head) }
    ensures err { IfErr result (λ e. e ≡ Fault.Memory) }
{
    Ok(Head {
        title: ascii_text(alloc, "Generated")?,
        id: None,
        name: None,
        place: Place::START,
        rest: Vec::new(alloc),
    })
}

fn source(alloc: Global) -> Result<LogSource, Fault>
    ensures ok { IfOk result (λ source. source ≡ spec.source) }
    ensures err { IfErr result (λ e. e ≡ Fault.Memory) }
{
    Ok(LogSource {
        category: Some(ascii_text(alloc, "generated")?),
        product: None,
        service: None,
    })
}

/// The three detections, with these texts and this number.
fn detections(alloc: Global, image: &str, user: &str, code: i64) -> Result<Detections, Fault>
    requires image { is_ascii image.now ≡ true }
    requires user { is_ascii user.now ≡ true }
    ensures ok { IfOk result (λ all. all ≡ spec.detections image.now user.now code) }
    ensures err { IfErr result (λ e. e ≡ Fault.Memory) }
{
    let image = is_text(alloc, image)?;
    let user = has_text(alloc, user)?;
    let code = Test::Compare {
        op: Op::Gte,
        number: code,
    };
    let mut all = Detections::new(alloc);
    all.push(asks(alloc, "sel1", "Image", image)?)?;
    all.push(asks(alloc, "sel2", "User", user)?)?;
    all.push(asks(alloc, "sel3", "Code", code)?)?;
    Ok(all)
}

/// The rule of a seed; only want of memory is answered.
pub fn make_rule(alloc: Global, seed: u32) -> Result<Rule, Fault>
    ensures ok { IfOk result (λ rule. rule_view rule ≡ spec.rule_of seed) }
    ensures err { IfErr result (λ e. e ≡ Fault.Memory) }
{
    let image = word(first_draw(seed) % 8);
    let user = word(second_draw(seed) % 8);
    let code = (third_draw(seed) % 100) as i64;
    let mut conditions = Vec::new(alloc);
    conditions.push(condition(alloc)?)?;
    Ok(Rule {
        head: head(alloc)?,
        source: source(alloc)?,
        detections: detections(alloc, image, user, code)?,
        conditions,
    })
}
