//! Writing output and diagnostics.

ghost use Rattle.std.specs.Prelude.{◌≡◌, List, ℕ, IfOk};
ghost use Rattle.answer_writer.specs.Lines.{ended};
ghost use Rattle.answer_writer.specs.Parts.{text_share, diagnostic_share};
ghost use Rattle.answer_writer.specs.Stands.{Writes};

use crate::outside::Outside;
use crate::stop::Stop;
use std::alloc::AllocError;

/// Writes bytes on the output; nothing is refused by it.
pub fn put_text<W: Outside>(text: &[u8], outside: &mut W) -> Result<bool, Stop>
    ensures { Writes (λ share. share ≡ text_share text.now) result (W.state outside.old) (W.state outside.new) }
{
    match outside.put(text) {
        Ok(()) => Ok(false),
        Err(_) => Err(Stop::Unwritten),
    }
}

/// Writes a line with its line feed, in one write, on the output; nothing is refused by it.
pub fn put_line<W: Outside>(line: Vec<u8>, outside: &mut W) -> Result<bool, Stop>
    ensures { Writes (λ share. share ≡ text_share (ended line.items)) result (W.state outside.old) (W.state outside.new) }
{
    match ended_line(line) {
        Ok(text) => put_text(text.as_slice(), outside),
        Err(_) => Err(Stop::Memory),
    }
}

/// The line with its line feed.
fn ended_line(line: Vec<u8>) -> Result<Vec<u8>, AllocError>
    ensures { IfOk result (λ text. text.items ≡ ended line.items) }
{
    let mut text = line;
    text.push(b'\n')?;
    Ok(text)
}

/// Writes a diagnostic that ends in its line feed, about something that is refused.
pub fn tell_diagnostic<W: Outside>(text: &[u8], outside: &mut W) -> Result<bool, Stop>
    ensures { (diagnostic : List ℕ) → text.now ≡ ended diagnostic
        → Writes (λ share. share ≡ diagnostic_share diagnostic) result (W.state outside.old) (W.state outside.new) }
{
    match outside.tell(text) {
        Ok(()) => Ok(true),
        Err(_) => Err(Stop::Unwritten),
    }
}
