//! Plain scalars on one line (YAML 1.2, 7.3.3), and what they mean.

ghost use Rattle.std.specs.Prelude.{◌≡◌, ◌≤◌, ◌<◌, length, take, true};
ghost use Rattle.yaml_inline.specs.Line as spec;
ghost use Rattle.yaml_inline.specs.Quotes.{StartsSolid};

use crate::scan::{behind, is_blank, may_stop, stops};

/// How many characters a plain scalar has here, with the blanks behind it.
#[tactic(auto, using(crate::proofs::Fronts::plain_len_pass, crate::proofs::Fronts::plain_len_more, crate::proofs::Fronts::plain_len_stop, crate::proofs::Fronts::plain_len_end))]
fn plain_len(in_flow: bool, rest: &[char]) -> usize
    ensures len { result ≡ spec.plain_len in_flow rest.now }
    ensures within { result ≤ length rest.now }
{
    for at in 0..rest.len() {
        if !may_stop(in_flow, rest[at]) {
            continue;
        }
        if stops(in_flow, behind(rest, at)) {
            return at;
        }
    }
    rest.len()
}

/// The characters without the blanks at their end.
#[tactic(auto, using(crate::proofs::Fronts::trimmed_turn, crate::proofs::Fronts::trimmed_end))]
pub fn trimmed(all: &[char]) -> &[char]
    ensures front { result.now ≡ spec.trimmed all.now }
    ensures within { length result.now ≤ length all.now }
{
    let mut end = all.len();
    while end > 0 && is_blank(all[end - 1]) {
        end -= 1;
    }
    all.split_at(end).0
}

/// The characters of the plain scalar that begins here, and what is left behind it.
#[tactic(auto, unfolding(crate::specs::Line::plain_front, crate::specs::Line::plain_rest), using(crate::proofs::Nexts::plain_rest_shorter))]
pub fn plain_parts(in_flow: bool, rest: &[char]) -> (&[char], &[char])
    ensures front { result.0.now ≡ spec.plain_front in_flow rest.now }
    ensures rest { result.1.now ≡ spec.plain_rest in_flow rest.now }
    ensures within { length result.1.now ≤ length rest.now }
    ensures shorter { StartsSolid rest.now → length result.1.now < length rest.now }
{
    let (front, after) = rest.split_at(plain_len(in_flow, rest));
    (trimmed(front), after)
}
