//! `correlate`: the reports of the correlations of rule files over the events.

ghost use Rattle.std.specs.Prelude.{◌≡◌, ◌<◌, ◌^◌, ◌∷◌, [], true, List, Some, length};
ghost use Rattle.std.specs.List.{AllByRecursion};
ghost use Rattle.answer_writer.specs.FollowedLines.{FollowedLines};
ghost use Rattle.answer_writer.specs.Stands.{Ends, Writes};
ghost use Rattle.correlation_engine.specs.Limits.{IsWithinLimits};
ghost use Rattle.correlation_files.specs.Found.{StandsFor, Named};
ghost use Rattle.correlation_run.specs.Followed.{Follows};
ghost use Rattle.correlation_windows.specs.History.{Taken};
ghost use Rattle.rule_model.specs.Plain.{PlainRule};
ghost use Rattle.sigma_serve.specs.Answers.{names_with};
ghost use Rattle.sigma_serve.specs.Correlated.{CorrelatedBy, CorrelatedBySome, FilesCorrelated, TimedBy, TimedBySome};
ghost use Rattle.sigma_serve.specs.Sourced.{AreBindings, AreTold, IsFound};
ghost use Rattle.sigma_serve.specs.UnderPipelines.{PipedBuilder};
ghost use Rattle.sigma_serve.specs.UnderSchema.{UnderBuilder, is_ended};

use crate::documents::put_refusal;
use crate::given_pipelines::{PipelineCommand, answer_pipelines};
use crate::given_schema::{SchemaCommand, answer_under};
use crate::laws::each_answer;
use crate::sources::answer_sources;
use answer_writer::{Outside, Stop, either};
use correlation_engine::Engine;
use correlation_files::{Bindings, Found, Unbound};
use correlation_run::follow_events;
use correlation_windows::Bound;
use event_schema::Schema;
use pipeline_model::Pipeline;
use query_lang::Builder;
use sig_base::{Code, Detail, Limits, Place, Refusal, Text};
use std::alloc::Global;

/// Correlates what the pipelines of a file, if one is named, make of the rules of files, under the schema of a file.
#[derive(Drop)]
struct CorrelateFiles<'l, 's, 'p, 'r> {
    limits: &'l Limits,
    schema: &'s Text,
    pipelines: &'p Option<Text>,
    rules: &'r [Text],
}

impl PipelineCommand for CorrelateFiles<'_, '_, '_, '_> {
    ghost by_made = { λ c. FilesCorrelated c.limits.now c.rules.now };

    ghost own_names = { λ c. c.rules.now };

    ghost own_events = { λ c. true };

    fn answer_made<W: Outside, B: Builder>(
        &self,
        alloc: Global,
        pipelines: &[Pipeline],
        given: Option<&Schema>,
        outside: &mut W,
        builder: &mut B,
    ) -> Result<bool, Stop> {
        let Some(schema) = given else {
            return Ok(false);
        };
        answer_rules(
            alloc,
            self.limits,
            pipelines,
            schema,
            self.rules,
            outside,
            builder,
        )
    }

    fn each_made(&self) {
        each_answer();
        correlation_files::one_outcome();
    }
}

impl SchemaCommand for CorrelateFiles<'_, '_, '_, '_> {
    ghost by = { λ c. TimedBy (PipedBuilder (FilesCorrelated c.limits.now c.rules.now) c.limits.now c.pipelines.now) c.schema.now };

    ghost names = { λ c. names_with c.pipelines.now c.rules.now };

    ghost events = { λ c. true };

    fn answer<W: Outside, B: Builder>(
        &self,
        alloc: Global,
        given: Option<&Schema>,
        outside: &mut W,
        builder: &mut B,
    ) -> Result<bool, Stop> {
        let Some(schema) = given else {
            return Ok(false);
        };
        answer_timed(alloc, self, schema, outside, builder)
    }

    fn each_under(&self) {
        each_answer();
        pipeline_files::one_outcome();
        correlation_files::one_outcome();
    }
}

/// Answers under a schema with a time, or refuses one without.
fn answer_timed<W: Outside, B: Builder>(
    alloc: Global,
    command: &CorrelateFiles<'_, '_, '_, '_>,
    schema: &Schema,
    outside: &mut W,
    builder: &mut B,
) -> Result<bool, Stop>
    ensures { Ends (record { names = names_with command.now.pipelines.now command.now.rules.now; events = true })
        (TimedBySome (PipedBuilder (FilesCorrelated command.now.limits.now command.now.rules.now) command.now.limits.now command.now.pipelines.now) command.now.schema.now (B.refused builder.old) (B.refused builder.new) (is_ended result) schema.now)
        result (W.state outside.old) (W.state outside.new) }
{
    match &schema.time {
        Some(_) => answer_pipelines(
            alloc,
            command.limits,
            command,
            command.pipelines,
            Some(schema),
            outside,
            builder,
        ),
        None => {
            let untimed = Refusal {
                code: Code::SCHEMA_NO_TIME,
                place: Place::START,
                detail: Detail::None,
            };
            put_refusal(alloc, command.schema, &untimed, outside)
        }
    }
}

/// Reads the rule files, and then correlates what was found in them.
fn answer_rules<W: Outside, B: Builder>(
    alloc: Global,
    limits: &Limits,
    pipelines: &[Pipeline],
    schema: &Schema,
    rules: &[Text],
    outside: &mut W,
    builder: &mut B,
) -> Result<bool, Stop>
    ensures { Ends (record { names = rules.now; events = true })
        (CorrelatedBySome limits.now rules.now pipelines.now (B.refused builder.old) (B.refused builder.new) (is_ended result) schema.now)
        result (W.state outside.old) (W.state outside.new) }
{
    each_answer();
    let mut found = Found::new(alloc);
    let refused = match answer_sources(
        alloc, limits, pipelines, schema, rules, &mut found, outside, builder,
    ) {
        Ok(refused) => refused,
        Err(stop) => return Err(stop),
    };
    match answer_found(alloc, limits, schema, &found, outside) {
        Ok(more) => Ok(either(refused, more)),
        Err(stop) => Err(stop),
    }
}

/// Binds the correlations that were found to the rules, and follows the events.
fn answer_found<W: Outside>(
    alloc: Global,
    limits: &Limits,
    schema: &Schema,
    found: &Found,
    outside: &mut W,
) -> Result<bool, Stop>
    requires { IsFound schema.now found.now }
    ensures { (rules : List PlainRule) (correlations : List Named) → StandsFor schema.now rules correlations found.now
        → Ends (record { names = []; events = true }) (CorrelatedBy limits.now schema.now rules correlations) result (W.state outside.old) (W.state outside.new) }
{
    each_answer();
    match found.bind(alloc, schema) {
        Ok(bindings) => answer_bindings(alloc, limits, schema, found, bindings, outside),
        Err(_) => Err(Stop::Memory),
    }
}

/// Tells of the correlations that aren't bound, and follows the events by the others.
fn answer_bindings<W: Outside>(
    alloc: Global,
    limits: &Limits,
    schema: &Schema,
    found: &Found,
    bindings: Bindings,
    outside: &mut W,
) -> Result<bool, Stop>
    requires found { IsFound schema.now found.now }
    requires are { AreBindings schema.now found.now bindings }
    ensures { (rules : List PlainRule) (correlations : List Named) → StandsFor schema.now rules correlations found.now
        → Ends (record { names = []; events = true }) (CorrelatedBy limits.now schema.now rules correlations) result (W.state outside.old) (W.state outside.new) }
{
    correlation_run::one_follower();
    let Bindings {
        bounds,
        names,
        unbound,
    } = bindings;
    let refused = match put_unbound(alloc, unbound.as_slice(), outside) {
        Ok(refused) => refused,
        Err(stop) => return Err(stop),
    };
    match follow_bound(
        alloc,
        limits,
        schema,
        found,
        bounds,
        names.as_slice(),
        outside,
    ) {
        Ok(more) => Ok(either(refused, more)),
        Err(stop) => Err(stop),
    }
}

/// Writes a diagnostic about each correlation that isn't bound, in their order, and tells whether there was one.
fn put_unbound<W: Outside>(alloc: Global, causes: &[Unbound], outside: &mut W) -> Result<bool, Stop>
    ensures { Writes (AreTold causes.now) result (W.state outside.old) (W.state outside.new) }
{
    let mut found = false;
    for cause in causes {
        match put_refusal(alloc, &cause.file, &cause.refusal, outside) {
            Ok(refused) => found = either(found, refused),
            Err(stop) => return Err(stop),
        }
    }
    Ok(found)
}

/// Follows the events by the rules that were found and these correlations of them, from no event on.
fn follow_bound<W: Outside>(
    alloc: Global,
    limits: &Limits,
    schema: &Schema,
    found: &Found,
    bounds: Vec<Bound>,
    names: &[Text],
    outside: &mut W,
) -> Result<bool, Stop>
    requires found { IsFound schema.now found.now }
    requires limits { AllByRecursion IsWithinLimits bounds.items }
    requires few { length bounds.items < 2 ^ 32 }
    ensures { (rules : List PlainRule) (correlations : List Named) → StandsFor schema.now rules correlations found.now
        → Ends (record { names = []; events = true })
        (λ world parts. (after : List Taken) × FollowedLines (Follows (record { schema = schema.now; rules = rules; bounds = bounds.items; names = names.now })) limits.now [] world parts after)
        result (W.state outside.old) (W.state outside.new) }
{
    correlation_run::one_follower();
    let Ok(mut engine) = Engine::make(alloc, bounds) else {
        return Err(Stop::Memory);
    };
    follow_events(
        alloc,
        limits,
        schema,
        found.rules.as_slice(),
        found.ready.as_slice(),
        names,
        &mut engine,
        outside,
    )
}

/// Answers the reports of the correlations of the rule files over the events, under the pipelines of a file if one is named and under the
/// schema of a file.
pub(crate) fn answer_correlate<W: Outside, B: Builder>(
    alloc: Global,
    limits: &Limits,
    schema: &Text,
    pipelines: &Option<Text>,
    rules: &[Text],
    outside: &mut W,
    builder: &mut B,
) -> Result<bool, Stop>
    ensures { Ends (record { names = schema.now ∷ names_with pipelines.now rules.now; events = true })
        (UnderBuilder (TimedBy (PipedBuilder (FilesCorrelated limits.now rules.now) limits.now pipelines.now) schema.now) limits.now (Some schema.now) (B.refused builder.old) (B.refused builder.new) (is_ended result))
        result (W.state outside.old) (W.state outside.new) }
{
    let command = CorrelateFiles {
        limits,
        schema,
        pipelines,
        rules,
    };
    answer_under(alloc, limits, &command, schema, outside, builder)
}
