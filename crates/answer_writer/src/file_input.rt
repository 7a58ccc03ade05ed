//! Reading the files that a command needs.

ghost use Rattle.std.specs.Prelude.{◌≡◌, OnOk, IfOk, IfErr, string_bytes};
ghost use Rattle.answer_writer.specs.Input.{File, unread_diagnostic};
ghost use Rattle.answer_writer.specs.Lines.{ended};
ghost use Rattle.answer_writer.specs.Stands.{StopsBefore, ToldUnread};
ghost use Rattle.sig_base.specs.Files.{IsFront};

use crate::outside::Outside;
use crate::stop::Stop;
use sig_base::{Bytes, ShelfFault, Text};
use std::alloc::{AllocError, Global};

/// Reads a file, at most so many bytes of it, or says by a diagnostic that it can't be read.
pub fn read_file<W: Outside>(
    alloc: Global,
    name: &Text,
    at_most: usize,
    outside: &mut W,
) -> Result<Bytes, Stop>
    ensures front { IfOk result (λ bytes. IsFront (W.state outside.old).inputs.files name.now at_most bytes) }
    ensures same { OnOk result (W.state outside.new ≡ W.state outside.old) }
    ensures stops { IfErr result (λ stop. StopsBefore name.now stop (W.state outside.old) (W.state outside.new)) }
{
    match outside.read_file(alloc, name, at_most) {
        Ok(bytes) => Ok(bytes),
        Err(ShelfFault::Failed) => Err(tell_unread(alloc, name, outside)),
        Err(ShelfFault::Memory) => Err(Stop::Memory),
    }
}

/// Writes the diagnostic about a file that can't be read.
fn tell_unread<W: Outside>(alloc: Global, name: &Text, outside: &mut W) -> Stop
    ensures told { ToldUnread (File name.now) result (W.state outside.old) (W.state outside.new) }
    ensures inputs { (W.state outside.new).inputs ≡ (W.state outside.old).inputs }
    ensures kept { (W.state outside.new).references ≡ (W.state outside.old).references }
{
    let Ok(line) = unread_text(alloc, name) else {
        return Stop::Memory;
    };
    match outside.tell(line.as_bytes()) {
        Ok(()) => Stop::Unread,
        Err(_) => Stop::Unwritten,
    }
}

/// The diagnostic about a file that can't be read, with its line feed.
fn unread_text(alloc: Global, name: &Text) -> Result<String, AllocError>
    ensures { IfOk result (λ line. string_bytes line ≡ ended (unread_diagnostic (File name.now))) }
{
    let file = name.as_str();
    format!(in alloc; "sigma: cannot read {file}\n")
}
