//! The eight texts, and copies of texts in ASCII.

ghost use Rattle.std.specs.Prelude.{◌≡◌, true, IfOk, IfErr};
ghost use Rattle.sig_base.specs.Texts.{is_ascii};
ghost use Rattle.generate_run.specs.Words as spec;

use sig_base::{Fault, Text};
use std::alloc::Global;

/// The text of these characters; only want of memory is answered.
#[tactic(auto, using(sig_base::proofs::TextLemmas::ascii_chars))]
pub fn ascii_text(alloc: Global, text: &str) -> Result<Text, Fault>
    requires { is_ascii text.now ≡ true }
    ensures ok { IfOk result (λ t. t ≡ text.now) }
    ensures err { IfErr result (λ e. e ≡ Fault.Memory) }
{
    Text::copy(alloc, text)
}

/// The text of a number below 8; else the empty text.
pub fn word(number: u32) -> &'static str
    ensures text { result.now ≡ spec.word number }
    ensures ascii { is_ascii result.now ≡ true }
{
    match number {
        0 => "cmd.exe",
        1 => "CMD.EXE",
        2 => "power shell",
        3 => "a*b",
        4 => "100%",
        6 => "AND",
        7 => "x_y",
        _ => "",
    }
}
