//! Writing the lines of events that are picked.

ghost use Rattle.std.specs.Prelude.{◌≡◌};
ghost use Rattle.answer_writer.specs.Stands.{Writes};
ghost use Rattle.answer_writer.specs.Selected.{picked_share};

use crate::output::put_line;
use crate::outside::Outside;
use crate::stop::Stop;
use sig_base::Bytes;

/// Writes the line of an event as it was read, where the event is picked, and else nothing.
pub fn put_picked<W: Outside>(picked: bool, line: Bytes, outside: &mut W) -> Result<bool, Stop>
    ensures { Writes (λ share. share ≡ picked_share picked line) result (W.state outside.old) (W.state outside.new) }
{
    if !picked {
        return Ok(false);
    }
    put_line(line.into_vec(), outside)
}
