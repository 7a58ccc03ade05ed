//! Numbers that are drawn.

ghost use Rattle.std.specs.Prelude.{◌≡◌};
ghost use Rattle.generate_run.specs.Draws as spec;

/// The state after a draw.
pub fn next(state: u32) -> u32
    ensures { result ≡ spec.next state }
{
    let wide = (1664525 * state as u64 + 1013904223) % 4294967296;
    wide as u32
}

/// The state after three draws.
pub fn after_three(state: u32) -> u32
    ensures { result ≡ spec.after_three state }
{
    next(next(next(state)))
}

/// The first draw from a state.
pub fn first_draw(state: u32) -> u32
    ensures { result ≡ spec.first_draw state }
{
    next(state) / 65536
}

/// The second draw from a state.
pub fn second_draw(state: u32) -> u32
    ensures { result ≡ spec.second_draw state }
{
    first_draw(next(state))
}

/// The third draw from a state.
pub fn third_draw(state: u32) -> u32
    ensures { result ≡ spec.third_draw state }
{
    second_draw(next(state))
}

/// The state after so many events, of three draws each.
#[tactic(auto, using(crate::proofs::Drawn::one_after, crate::proofs::Drawn::none_after))]
pub fn after_events(state: u32, count: u32) -> u32
    ensures { result ≡ spec.after_events state count }
{
    let mut state = state;
    for _ in 0..count {
        state = after_three(state);
    }
    state
}
