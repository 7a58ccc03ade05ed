//! `generate`: a rule is compared with its queries over events that a number makes.

ghost use Rattle.std.specs.Prelude.{[], false};
ghost use Rattle.answer_writer.specs.Stands.{Ends};
ghost use Rattle.sigma_serve.specs.Generate.{Generated};

use answer_writer::{Outside, Stop, put_line};
use generate_run::{generate, generated_lines};
use std::alloc::Global;

/// Writes the line of a number and of so many events; nothing is read for it, and nothing is refused.
pub(crate) fn answer_generate<W: Outside>(
    alloc: Global,
    seed: u32,
    events: u32,
    outside: &mut W,
) -> Result<bool, Stop>
    ensures { Ends (record { names = []; events = false }) (λ world parts. Generated seed events parts) result (W.state outside.old) (W.state outside.new) }
{
    generated_lines();
    match generate(alloc, seed, events) {
        Ok(line) => put_line(line.into_vec(), outside),
        Err(_) => Err(Stop::Memory),
    }
}
