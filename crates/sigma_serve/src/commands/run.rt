//! `run`: the events that the rule that pipelines make matches.

ghost use Rattle.std.specs.Prelude.{◌≡◌, ◌+◌, ◌∷◌, [], true, Option, None, Some, List, ℕ, option_map};
ghost use Rattle.answer_writer.specs.EventLines.{EventLines};
ghost use Rattle.answer_writer.specs.Stands.{Ends};
ghost use Rattle.event_schema.specs.Lists.{EachOf};
ghost use Rattle.pipeline_run.specs.Kept.{IsWholePipeline};
ghost use Rattle.detection_eval.specs.Ready.{StandsFor, JudgesFor};
ghost use Rattle.event_schema.specs.declared.schema.Schema.{Schema as SchemaData};
ghost use Rattle.pipeline_model.specs.declared.pipeline.Pipeline.{Pipeline as PipelineData};
ghost use Rattle.rule_model.specs.Plain.{rule_view};
ghost use Rattle.rule_run.specs.Answers.{ForValues, IsBare};
ghost use Rattle.rule_run.specs.Runs.{IsFit};
ghost use Rattle.rule_schema.specs.Inferred.{schema_for};
ghost use Rattle.sig_base.specs.Files.{IsFront};
ghost use Rattle.sigma_serve.specs.Answers.{names_with};
ghost use Rattle.sigma_serve.specs.Ran.{RunGives, RanBySome};
ghost use Rattle.sigma_serve.specs.UnderPipelines.{ByPipelines, PipedBuilder};
ghost use Rattle.sigma_serve.specs.UnderSchema.{UnderBuilder, is_ended};

use crate::documents::put_refusal;
use crate::given_pipelines::{PipelineCommand, answer_pipelines};
use crate::given_schema::{SchemaCommand, answer_schema};
use crate::laws::each_answer;
use answer_writer::{
    LineCommand, Outside, Stop, answer_lines, put_picked, read_file, tell_line_refusal,
};
use detection_eval::{Judge, Ready};
use event_read::read_event;
use event_schema::Schema;
use pipeline_model::Pipeline;
use query_lang::Builder;
use rule_model::Rule;
use rule_run::{rule_alone, rule_under};
use sig_base::{Bytes, Fault, Limits, Text};
use std::alloc::Global;
use yaml_documents::laws::{one_verdict, verdicts};

/// Runs what the pipelines of a file, if one is named, make of the rule of a file.
#[derive(Drop)]
struct RunFile<'l, 'p, 'r> {
    limits: &'l Limits,
    pipelines: &'p Option<Text>,
    rule: &'r Text,
}

impl PipelineCommand for RunFile<'_, '_, '_> {
    ghost by_made = { λ c. RanBySome c.limits.now c.rule.now };

    ghost own_names = { λ c. c.rule.now ∷ [] };

    ghost own_events = { λ c. true };

    fn answer_made<W: Outside, B: Builder>(
        &self,
        alloc: Global,
        pipelines: &[Pipeline],
        given: Option<&Schema>,
        outside: &mut W,
        builder: &mut B,
    ) -> Result<bool, Stop> {
        self.each_made();
        match read_file(alloc, self.rule, self.limits.file_bytes + 1, outside) {
            Ok(bytes) => run_bytes(
                alloc,
                self.limits,
                pipelines,
                given,
                self.rule,
                bytes.as_slice(),
                outside,
                builder,
            ),
            Err(stop) => Err(stop),
        }
    }

    fn each_made(&self) {
        each_answer();
    }
}

impl SchemaCommand for RunFile<'_, '_, '_> {
    ghost by = { λ c. PipedBuilder (RanBySome c.limits.now c.rule.now) c.limits.now c.pipelines.now };

    ghost names = { λ c. names_with c.pipelines.now (c.rule.now ∷ []) };

    ghost events = { λ c. true };

    fn answer<W: Outside, B: Builder>(
        &self,
        alloc: Global,
        given: Option<&Schema>,
        outside: &mut W,
        builder: &mut B,
    ) -> Result<bool, Stop> {
        answer_pipelines(
            alloc,
            self.limits,
            self,
            self.pipelines,
            given,
            outside,
            builder,
        )
    }

    fn each_under(&self) {
        each_answer();
        pipeline_files::one_outcome();
    }
}

/// Runs what pipelines make of the rule that a file's bytes are, or refuses them and ends.
fn run_bytes<W: Outside, B: Builder>(
    alloc: Global,
    limits: &Limits,
    pipelines: &[Pipeline],
    given: Option<&Schema>,
    file: &Text,
    bytes: &[u8],
    outside: &mut W,
    builder: &mut B,
) -> Result<bool, Stop>
    ensures { IsFront (W.state outside.old).inputs.files file.now (limits.now.file_bytes + 1) bytes.now
        → Ends (record { names = file.now ∷ []; events = true }) (RanBySome limits.now file.now pipelines.now (B.refused builder.old) (B.refused builder.new) (is_ended result) (option_map (λ s. s.now) given.entry)) result (W.state outside.old) (W.state outside.new) }
{
    match given {
        Some(schema) => run_under(
            alloc, limits, pipelines, schema, file, bytes, outside, builder,
        ),
        None => run_alone(alloc, limits, pipelines, file, bytes, outside, builder),
    }
}

/// Runs a rule under a schema.
fn run_under<W: Outside, B: Builder>(
    alloc: Global,
    limits: &Limits,
    pipelines: &[Pipeline],
    schema: &Schema,
    file: &Text,
    bytes: &[u8],
    outside: &mut W,
    builder: &mut B,
) -> Result<bool, Stop>
    ensures { IsFront (W.state outside.old).inputs.files file.now (limits.now.file_bytes + 1) bytes.now
        → Ends (record { names = file.now ∷ []; events = true }) (RanBySome limits.now file.now pipelines.now (B.refused builder.old) (B.refused builder.new) (is_ended result) (Some schema.now)) result (W.state outside.old) (W.state outside.new) }
{
    each_answer();
    match rule_under(alloc, limits, pipelines, schema, bytes, builder) {
        Ok(rule) => run_rule(alloc, limits, schema, file, &rule, outside, builder),
        Err(Fault::Refused(cause)) => put_refusal(alloc, file, &cause, outside),
        Err(Fault::Memory) => Err(Stop::Memory),
    }
}

/// Runs a rule under the schema that is made of it.
fn run_alone<W: Outside, B: Builder>(
    alloc: Global,
    limits: &Limits,
    pipelines: &[Pipeline],
    file: &Text,
    bytes: &[u8],
    outside: &mut W,
    builder: &mut B,
) -> Result<bool, Stop>
    ensures { IsFront (W.state outside.old).inputs.files file.now (limits.now.file_bytes + 1) bytes.now
        → Ends (record { names = file.now ∷ []; events = true }) (RanBySome limits.now file.now pipelines.now (B.refused builder.old) (B.refused builder.new) (is_ended result) None) result (W.state outside.old) (W.state outside.new) }
{
    each_answer();
    match rule_alone(alloc, limits, pipelines, bytes, builder) {
        Ok(found) => run_rule(
            alloc,
            limits,
            &found.schema,
            file,
            &found.rule,
            outside,
            builder,
        ),
        Err(Fault::Refused(cause)) => put_refusal(alloc, file, &cause, outside),
        Err(Fault::Memory) => Err(Stop::Memory),
    }
}

/// Makes a rule that fits its schema ready and answers the events by it, or refuses the rule and ends, where a regular expression of it
/// isn't built.
fn run_rule<W: Outside, B: Builder>(
    alloc: Global,
    limits: &Limits,
    schema: &Schema,
    file: &Text,
    rule: &Rule,
    outside: &mut W,
    builder: &mut B,
) -> Result<bool, Stop>
    ensures { (ps : List PipelineData) (given : Option SchemaData) (bytes : List ℕ) (before : List (List ℕ)) → IsFront (W.state outside.old).inputs.files file.now (limits.now.file_bytes + 1) bytes
        → ForValues limits.now bytes before (B.refused builder.old) true (λ values. IsBare (IsFit values limits.now ps given bytes) rule.now) → schema.now ≡ schema_for given (rule_view rule.now)
        → Ends (record { names = file.now ∷ []; events = true }) (RanBySome limits.now file.now ps before (B.refused builder.new) (is_ended result) given) result (W.state outside.old) (W.state outside.new) }
{
    each_answer();
    verdicts();
    one_verdict();
    match Ready::make(alloc, schema, rule, builder) {
        Ok(ready) => answer_events(alloc, limits, schema, rule, &ready, outside),
        Err(Fault::Refused(cause)) => put_refusal(alloc, file, &cause, outside),
        Err(Fault::Memory) => Err(Stop::Memory),
    }
}

/// A rule that judges the events of a schema.
#[derive(Drop)]
struct RunLines<'s, 'r> {
    schema: &'s Schema,
    rule: &'r Rule,
    judge: Judge<'r>,
}

impl LineCommand for RunLines<'_, '_> {
    ghost gives = { λ c. RunGives c.schema.now (rule_view c.rule.now) };

    ghost keeps = { λ c. JudgesFor c.schema.now.fields (rule_view c.rule.now) c.judge };

    fn answer<W: Outside>(
        &mut self,
        alloc: Global,
        number: u32,
        line: Bytes,
        outside: &mut W,
    ) -> Result<bool, Stop> {
        self.each_line();
        match read_event(alloc, self.schema, number, line.as_slice()) {
            Ok(event) => {
                let picked = self.judge.matches(&event);
                put_picked(picked, line, outside)
            }
            Err(Fault::Refused(cause)) => tell_line_refusal(alloc, number, cause.code, outside),
            Err(Fault::Memory) => Err(Stop::Memory),
        }
    }

    fn each_line(&self) {
        each_answer();
    }
}

/// Answers the lines of the events by a rule that is ready.
fn answer_events<W: Outside>(
    alloc: Global,
    limits: &Limits,
    schema: &Schema,
    rule: &Rule,
    ready: &Ready,
    outside: &mut W,
) -> Result<bool, Stop>
    requires { StandsFor schema.now.fields (rule_view rule.now) ready.now }
    ensures { Ends (record { names = []; events = true }) (EventLines (RunGives schema.now (rule_view rule.now)) limits.now) result (W.state outside.old) (W.state outside.new) }
{
    each_answer();
    let judge = match ready.judge(alloc) {
        Ok(judge) => judge,
        Err(_) => return Err(Stop::Memory),
    };
    let mut lines = RunLines {
        schema,
        rule,
        judge,
    };
    answer_lines(alloc, limits, &mut lines, outside)
}

/// Answers the events that what the pipelines of a file, if one is named, make of the rule of a file matches, read under the schema of a file
/// if one is named.
pub(crate) fn answer_run<W: Outside, B: Builder>(
    alloc: Global,
    limits: &Limits,
    schema: &Option<Text>,
    pipelines: &Option<Text>,
    rule: &Text,
    outside: &mut W,
    builder: &mut B,
) -> Result<bool, Stop>
    ensures { Ends (record { names = names_with schema.now (names_with pipelines.now (rule.now ∷ [])); events = true })
        (UnderBuilder (PipedBuilder (RanBySome limits.now rule.now) limits.now pipelines.now) limits.now schema.now (B.refused builder.old) (B.refused builder.new) (is_ended result)) result (W.state outside.old) (W.state outside.new) }
{
    answer_schema(
        alloc,
        limits,
        &RunFile {
            limits,
            pipelines,
            rule,
        },
        schema,
        outside,
        builder,
    )
}
