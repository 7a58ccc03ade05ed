//! What modifiers make of a pattern.

ghost use Rattle.std.specs.Prelude.{◌≡◌, IfOk, IfErr};
ghost use Rattle.modifier_values.specs.Edited as edits;

use modifier_words::{Chain, Modifier, Position};
use sig_base::Fault;
use sig_strings::Pattern;

fn with_runs(position: Position, pattern: Pattern) -> Result<Pattern, Fault>
    ensures ok { IfOk result (λ p. p ≡ edits.with_runs position pattern) }
    ensures err { IfErr result (λ e. e ≡ Fault.Memory) }
{
    match position {
        Position::Around => pattern.with_run_before()?.with_run_after(),
        Position::After => pattern.with_run_after(),
        Position::Before => pattern.with_run_before(),
    }
}

fn edited(modifier: Modifier, pattern: Pattern) -> Result<Pattern, Fault>
    ensures ok { IfOk result (λ p. p ≡ edits.edited modifier pattern) }
    ensures err { IfErr result (λ e. e ≡ Fault.Memory) }
{
    match modifier {
        Modifier::Position(position) => with_runs(position, pattern),
        Modifier::Windash => Ok(pattern.dashes()),
        Modifier::All
        | Modifier::Cased
        | Modifier::Expand
        | Modifier::Units(_)
        | Modifier::Encoding(_)
        | Modifier::Exists
        | Modifier::Cidr
        | Modifier::Order(_)
        | Modifier::Fieldref
        | Modifier::Re
        | Modifier::Flag(_) => Ok(pattern),
    }
}

fn all_edited(modifiers: &[Modifier], pattern: Pattern) -> Result<Pattern, Fault>
    ensures ok { IfOk result (λ p. p ≡ edits.all_edited modifiers.now pattern) }
    ensures err { IfErr result (λ e. e ≡ Fault.Memory) }
{
    let mut edit = pattern;
    for modifier in modifiers {
        edit = edited(*modifier, edit)?;
    }
    Ok(edit)
}

/// What the chain's modifiers make of a pattern, with the runs of a keyword.
pub fn pattern_of(chain: &Chain, pattern: Pattern) -> Result<Pattern, Fault>
    ensures ok { IfOk result (λ p. p ≡ edits.pattern_of chain.now pattern) }
    ensures err { IfErr result (λ e. e ≡ Fault.Memory) }
{
    let pattern = all_edited(chain.modifiers(), pattern)?;
    if !chain.is_keyword() || chain.has_position() {
        return Ok(pattern);
    }
    with_runs(Position::Around, pattern)
}
