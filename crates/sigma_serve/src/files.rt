//! Going through rule files.

ghost use Rattle.std.specs.Prelude.{◌≡◌, ◌∷◌, [], false, Contains};
ghost use Rattle.answer_writer.specs.Stands.{Ends};
ghost use Rattle.answer_writer.specs.Input.{Needs};
ghost use Rattle.sigma_serve.specs.RuleFiles.{FilesBySome};
ghost use Rattle.sigma_serve.specs.UnderSchema.{is_ended};

use crate::documents::{TreeCommand, answer_bytes, each_file};
use answer_writer::{Outside, Stop, either, read_file};
use query_lang::Builder;
use sig_base::{Limits, Text};
use std::alloc::Global;

/// Answers the files in their order, each wholly before the next is read; tells whether something was refused.
pub(super) fn answer_files<T: TreeCommand, W: Outside, B: Builder>(
    alloc: Global,
    command: &T,
    limits: &Limits,
    names: &[Text],
    outside: &mut W,
    builder: &mut B,
) -> Result<bool, Stop>
    requires { T.stands command.now }
    ensures { Ends (record { names = names.now; events = false }) (FilesBySome (T.gives command.now limits.now) limits.now (T.pipelines command.now) (B.refused builder.old) (B.refused builder.new) (is_ended result) names.now) result (W.state outside.old) (W.state outside.new) }
{
    each_file(command);
    let mut found = false;
    for name in names {
        match answer_file(alloc, command, limits, name, outside, builder) {
            Ok(refused) => found = either(found, refused),
            Err(stop) => return Err(stop),
        }
    }
    Ok(found)
}

/// Reads a file and answers it.
fn answer_file<T: TreeCommand, W: Outside, B: Builder>(
    alloc: Global,
    command: &T,
    limits: &Limits,
    name: &Text,
    outside: &mut W,
    builder: &mut B,
) -> Result<bool, Stop>
    requires { T.stands command.now }
    ensures { (needs : Needs) → Contains needs.names name.now → Ends (record { names = needs.names; events = false }) (FilesBySome (T.gives command.now limits.now) limits.now (T.pipelines command.now) (B.refused builder.old) (B.refused builder.new) (is_ended result) (name.now ∷ [])) result (W.state outside.old) (W.state outside.new) }
{
    each_file(command);
    match read_file(alloc, name, limits.file_bytes + 1, outside) {
        Ok(bytes) => answer_bytes(
            alloc,
            command,
            limits,
            name,
            bytes.as_slice(),
            outside,
            builder,
        ),
        Err(stop) => Err(stop),
    }
}
