//! Reading rule files whose rules are correlated.

ghost use Rattle.std.specs.Prelude.{◌≡◌, ◌∷◌, [], false, Contains, OnOk};
ghost use Rattle.answer_writer.specs.Input.{Needs};
ghost use Rattle.answer_writer.specs.Stands.{Ends, Writes};
ghost use Rattle.correlation_files.specs.Found.{Grows};
ghost use Rattle.sigma_serve.specs.Sourced.{GrowsBy, IsFound, SourceShare, SourcesBySome};
ghost use Rattle.sigma_serve.specs.UnderSchema.{is_ended};

use crate::given_pipelines::put_refusals;
use answer_writer::{Outside, Stop, either, read_file};
use correlation_files::{Found, one_outcome, read_rules};
use event_schema::Schema;
use pipeline_model::Pipeline;
use query_lang::Builder;
use sig_base::{Limits, Text};
use std::alloc::Global;

/// Reads the files in their order, each with its diagnostics before the next is read, and adds their rules and correlations to what was
/// found; tells whether something was refused.
pub(super) fn answer_sources<W: Outside, B: Builder>(
    alloc: Global,
    limits: &Limits,
    pipelines: &[Pipeline],
    schema: &Schema,
    names: &[Text],
    found: &mut Found,
    outside: &mut W,
    builder: &mut B,
) -> Result<bool, Stop>
    ensures ends { Ends (record { names = names.now; events = false })
        (SourcesBySome limits.now pipelines.now schema.now (B.refused builder.old) (B.refused builder.new) (is_ended result) names.now (λ files. OnOk result (GrowsBy schema.now files found.old found.new)))
        result (W.state outside.old) (W.state outside.new) }
    ensures kept { IsFound schema.now found.old → OnOk result (IsFound schema.now found.new) }
{
    one_outcome();
    let mut refused = false;
    for name in names {
        match answer_source(
            alloc, limits, pipelines, schema, name, found, outside, builder,
        ) {
            Ok(more) => refused = either(refused, more),
            Err(stop) => return Err(stop),
        }
    }
    Ok(refused)
}

/// Reads a file, and adds what its documents are.
fn answer_source<W: Outside, B: Builder>(
    alloc: Global,
    limits: &Limits,
    pipelines: &[Pipeline],
    schema: &Schema,
    name: &Text,
    found: &mut Found,
    outside: &mut W,
    builder: &mut B,
) -> Result<bool, Stop>
    ensures ends { (needs : Needs) → Contains needs.names name.now → Ends (record { names = needs.names; events = false })
        (SourcesBySome limits.now pipelines.now schema.now (B.refused builder.old) (B.refused builder.new) (is_ended result) (name.now ∷ []) (λ files. OnOk result (GrowsBy schema.now files found.old found.new)))
        result (W.state outside.old) (W.state outside.new) }
    ensures kept { IsFound schema.now found.old → OnOk result (IsFound schema.now found.new) }
{
    one_outcome();
    match read_file(alloc, name, limits.file_bytes + 1, outside) {
        Ok(bytes) => add_bytes(
            alloc,
            limits,
            pipelines,
            schema,
            name,
            bytes.as_slice(),
            found,
            outside,
            builder,
        ),
        Err(stop) => Err(stop),
    }
}

/// Adds what the documents of a file's bytes are, and tells which of them are refused.
fn add_bytes<W: Outside, B: Builder>(
    alloc: Global,
    limits: &Limits,
    pipelines: &[Pipeline],
    schema: &Schema,
    name: &Text,
    bytes: &[u8],
    found: &mut Found,
    outside: &mut W,
    builder: &mut B,
) -> Result<bool, Stop>
    ensures { Writes (SourceShare limits.now pipelines.now schema.now (B.refused builder.old) (B.refused builder.new) (is_ended result) name.now bytes.now (λ outcomes. OnOk result (Grows schema.now name.now outcomes found.old found.new)))
        result (W.state outside.old) (W.state outside.new) }
{
    one_outcome();
    match read_rules(
        alloc, limits, pipelines, schema, name, bytes, found, builder,
    ) {
        Ok(refusals) => put_refusals(alloc, name, refusals.as_slice(), outside),
        Err(_) => Err(Stop::Memory),
    }
}
