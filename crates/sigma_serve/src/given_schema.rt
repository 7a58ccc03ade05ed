//! Commands that a schema's file may be named for.

ghost use Rattle.std.specs.Prelude.{◌≡◌, ◌+◌, ◌∷◌, Some, Bool, false, List, ℕ, option_map};
ghost use Rattle.answer_writer.specs.Stands.{Ends};
ghost use Rattle.sig_base.specs.Files.{IsFront};
ghost use Rattle.sigma_serve.specs.Answers.{names_with};
ghost use Rattle.sigma_serve.specs.Laws.{EachUnder};
ghost use Rattle.sigma_serve.specs.UnderSchema.{ByBuilder, UnderBuilder, is_ended};

use crate::documents::put_refusal;
use answer_writer::{Outside, Stop, read_file};
use event_read::read_schema;
use event_schema::Schema;
use query_lang::Builder;
use sig_base::{Fault, Limits, Text};
use std::alloc::Global;

/// A command that answers under a schema, or with none: it reads these files, and the events or not.
pub(crate) trait SchemaCommand {
    ghost by: { Self → ByBuilder };

    ghost names: { Self → List (List ℕ) };

    ghost events: { Self → Bool };

    /// Answers under the schema, if one is given; regular expressions are built by the builder.
    fn answer<W: Outside, B: Builder>(
        &self,
        alloc: Global,
        given: Option<&Schema>,
        outside: &mut W,
        builder: &mut B,
    ) -> Result<bool, Stop>
        ensures { Ends (record { names = names self.now; events = events self.now }) (by self.now (B.refused builder.old) (B.refused builder.new) (is_ended result) (option_map (λ s. s.now) given.entry)) result (W.state outside.old) (W.state outside.new) };

    /// Each world has an answer, under each schema and where none is given; said of an answer that is cut off before anything is built.
    fn each_under(&self)
        ensures { (refused : List (List ℕ)) → EachUnder (by self.now refused refused false) };
}

/// Answers under the schema of a file, if one is named; nothing is answered of that file unless it's refused.
pub(crate) fn answer_schema<T: SchemaCommand, W: Outside, B: Builder>(
    alloc: Global,
    limits: &Limits,
    command: &T,
    schema: &Option<Text>,
    outside: &mut W,
    builder: &mut B,
) -> Result<bool, Stop>
    ensures { Ends (record { names = names_with schema.now (T.names command.now); events = T.events command.now }) (UnderBuilder (T.by command.now) limits.now schema.now (B.refused builder.old) (B.refused builder.new) (is_ended result)) result (W.state outside.old) (W.state outside.new) }
{
    match schema {
        Some(name) => answer_under(alloc, limits, command, name, outside, builder),
        None => command.answer(alloc, None, outside, builder),
    }
}

/// Reads the schema's file, and then answers.
pub(crate) fn answer_under<T: SchemaCommand, W: Outside, B: Builder>(
    alloc: Global,
    limits: &Limits,
    command: &T,
    name: &Text,
    outside: &mut W,
    builder: &mut B,
) -> Result<bool, Stop>
    ensures { Ends (record { names = name.now ∷ T.names command.now; events = T.events command.now }) (UnderBuilder (T.by command.now) limits.now (Some name.now) (B.refused builder.old) (B.refused builder.new) (is_ended result)) result (W.state outside.old) (W.state outside.new) }
{
    command.each_under();
    match read_file(alloc, name, limits.file_bytes + 1, outside) {
        Ok(bytes) => answer_read(
            alloc,
            limits,
            command,
            name,
            bytes.as_slice(),
            outside,
            builder,
        ),
        Err(stop) => Err(stop),
    }
}

/// Answers under the schema that was read, or refuses it and ends.
fn answer_read<T: SchemaCommand, W: Outside, B: Builder>(
    alloc: Global,
    limits: &Limits,
    command: &T,
    name: &Text,
    bytes: &[u8],
    outside: &mut W,
    builder: &mut B,
) -> Result<bool, Stop>
    ensures { IsFront (W.state outside.old).inputs.files name.now (limits.now.file_bytes + 1) bytes.now
        → Ends (record { names = name.now ∷ T.names command.now; events = T.events command.now }) (UnderBuilder (T.by command.now) limits.now (Some name.now) (B.refused builder.old) (B.refused builder.new) (is_ended result)) result (W.state outside.old) (W.state outside.new) }
{
    command.each_under();
    match read_schema(alloc, limits, bytes) {
        Ok(schema) => command.answer(alloc, Some(&schema), outside, builder),
        Err(Fault::Refused(cause)) => put_refusal(alloc, name, &cause, outside),
        Err(Fault::Memory) => Err(Stop::Memory),
    }
}
