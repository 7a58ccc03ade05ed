//! Commands that a file of pipelines may be named for.

ghost use Rattle.std.specs.Prelude.{◌≡◌, ◌+◌, ◌∷◌, [], Some, Bool, false, List, ℕ, option_map};
ghost use Rattle.answer_writer.specs.Stands.{Ends, Writes};
ghost use Rattle.event_schema.specs.Lists.{EachOf};
ghost use Rattle.pipeline_run.specs.Kept.{IsWholePipeline};
ghost use Rattle.pipeline_model.specs.declared.pipeline.Pipeline.{Pipeline as PipelineData};
ghost use Rattle.sig_base.specs.Files.{IsFront};
ghost use Rattle.sigma_serve.specs.Answers.{names_with};
ghost use Rattle.sigma_serve.specs.Laws.{EachUnder};
ghost use Rattle.sigma_serve.specs.UnderPipelines.{AreReported, ByPipelines, PipedBuilder};
ghost use Rattle.sigma_serve.specs.UnderSchema.{is_ended};

use crate::documents::put_refusal;
use answer_writer::{Outside, Stop, either, read_file};
use event_schema::Schema;
use pipeline_files::{FileFault, one_outcome, read_pipelines};
use pipeline_model::Pipeline;
use pipeline_run::by_priority;
use query_lang::Builder;
use sig_base::{Limits, Refusal, Text};
use std::alloc::Global;

/// A command that answers what pipelines make of rules, under a schema or with none: it reads these files, and the events or not.
pub(crate) trait PipelineCommand {
    ghost by_made: { Self → ByPipelines };

    ghost own_names: { Self → List (List ℕ) };

    ghost own_events: { Self → Bool };

    /// Answers under these pipelines, and under the schema if one is given; regular expressions are built by the builder.
    fn answer_made<W: Outside, B: Builder>(
        &self,
        alloc: Global,
        pipelines: &[Pipeline],
        given: Option<&Schema>,
        outside: &mut W,
        builder: &mut B,
    ) -> Result<bool, Stop>
        requires { EachOf IsWholePipeline pipelines.now }
        ensures { Ends (record { names = own_names self.now; events = own_events self.now })
            (by_made self.now pipelines.now (B.refused builder.old) (B.refused builder.new) (is_ended result) (option_map (λ s. s.now) given.entry)) result (W.state outside.old) (W.state outside.new) };

    /// Each world has an answer, under all pipelines and each schema; said of an answer that is cut off before anything is built.
    fn each_made(&self)
        ensures { (ps : List PipelineData) (refused : List (List ℕ)) → EachUnder (by_made self.now ps refused refused false) };
}

/// Answers under the pipelines of a file, if one is named; nothing is answered of that file unless it's refused.
pub(crate) fn answer_pipelines<T: PipelineCommand, W: Outside, B: Builder>(
    alloc: Global,
    limits: &Limits,
    command: &T,
    pipelines: &Option<Text>,
    given: Option<&Schema>,
    outside: &mut W,
    builder: &mut B,
) -> Result<bool, Stop>
    ensures { Ends (record { names = names_with pipelines.now (T.own_names command.now); events = T.own_events command.now })
        (PipedBuilder (T.by_made command.now) limits.now pipelines.now (B.refused builder.old) (B.refused builder.new) (is_ended result) (option_map (λ s. s.now) given.entry)) result (W.state outside.old) (W.state outside.new) }
{
    match pipelines {
        Some(name) => answer_named(alloc, limits, command, name, given, outside, builder),
        None => command.answer_made(alloc, &[], given, outside, builder),
    }
}

/// Reads the file of pipelines, and then answers.
fn answer_named<T: PipelineCommand, W: Outside, B: Builder>(
    alloc: Global,
    limits: &Limits,
    command: &T,
    name: &Text,
    given: Option<&Schema>,
    outside: &mut W,
    builder: &mut B,
) -> Result<bool, Stop>
    ensures { Ends (record { names = name.now ∷ T.own_names command.now; events = T.own_events command.now })
        (PipedBuilder (T.by_made command.now) limits.now (Some name.now) (B.refused builder.old) (B.refused builder.new) (is_ended result) (option_map (λ s. s.now) given.entry)) result (W.state outside.old) (W.state outside.new) }
{
    command.each_made();
    one_outcome();
    match read_file(alloc, name, limits.file_bytes + 1, outside) {
        Ok(bytes) => answer_read(
            alloc,
            limits,
            command,
            name,
            bytes.as_slice(),
            given,
            outside,
            builder,
        ),
        Err(stop) => Err(stop),
    }
}

/// Answers under the pipelines that were read, or tells why they're refused and ends.
fn answer_read<T: PipelineCommand, W: Outside, B: Builder>(
    alloc: Global,
    limits: &Limits,
    command: &T,
    name: &Text,
    bytes: &[u8],
    given: Option<&Schema>,
    outside: &mut W,
    builder: &mut B,
) -> Result<bool, Stop>
    ensures { IsFront (W.state outside.old).inputs.files name.now (limits.now.file_bytes + 1) bytes.now
        → Ends (record { names = name.now ∷ T.own_names command.now; events = T.own_events command.now })
        (PipedBuilder (T.by_made command.now) limits.now (Some name.now) (B.refused builder.old) (B.refused builder.new) (is_ended result) (option_map (λ s. s.now) given.entry)) result (W.state outside.old) (W.state outside.new) }
{
    command.each_made();
    one_outcome();
    let pipelines = match read_pipelines(alloc, limits, bytes, builder) {
        Ok(pipelines) => pipelines,
        Err(FileFault::Refused(causes)) => {
            return put_refusals(alloc, name, causes.as_slice(), outside);
        }
        Err(FileFault::Memory) => return Err(Stop::Memory),
    };
    match by_priority(alloc, pipelines) {
        Ok(ordered) => command.answer_made(alloc, ordered.as_slice(), given, outside, builder),
        Err(_) => Err(Stop::Memory),
    }
}

/// Writes a diagnostic about each refusal, in their order, and tells whether there was one.
pub(crate) fn put_refusals<W: Outside>(
    alloc: Global,
    name: &Text,
    causes: &[Refusal],
    outside: &mut W,
) -> Result<bool, Stop>
    ensures { Writes (AreReported name.now causes.now) result (W.state outside.old) (W.state outside.new) }
{
    let mut found = false;
    for cause in causes {
        match put_refusal(alloc, name, cause, outside) {
            Ok(refused) => found = either(found, refused),
            Err(stop) => return Err(stop),
        }
    }
    Ok(found)
}
