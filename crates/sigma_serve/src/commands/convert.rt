//! `convert`: the queries of rules that pipelines make.

ghost use Rattle.std.specs.Prelude.{◌≡◌, false, List, option_map};
ghost use Rattle.answer_writer.specs.Stands.{Ends, Writes};
ghost use Rattle.event_schema.specs.Lists.{EachOf};
ghost use Rattle.pipeline_run.specs.Kept.{IsWholePipeline};
ghost use Rattle.pipeline_model.specs.declared.pipeline.Pipeline.{Pipeline as PipelineData};
ghost use Rattle.rule_regex.specs.Unbuilt.{Unbuilt};
ghost use Rattle.sig_base.specs.declared.limits.Limits.{Limits as LimitsData};
ghost use Rattle.sigma_serve.specs.Answers.{names_with};
ghost use Rattle.sigma_serve.specs.Convert.{ConvertGives};
ghost use Rattle.sigma_serve.specs.Converted.{RulesBySome};
ghost use Rattle.sigma_serve.specs.Laws.{EachTree, EachUnder};
ghost use Rattle.sigma_serve.specs.RuleFiles.{BySome};
ghost use Rattle.sigma_serve.specs.UnderPipelines.{ByPipelines, PipedBuilder};
ghost use Rattle.sigma_serve.specs.UnderSchema.{UnderBuilder, is_ended};
ghost use Rattle.yaml_tree.specs.View.{node_view};

use crate::documents::{TreeCommand, put_refusal};
use crate::files::answer_files;
use crate::given_pipelines::{PipelineCommand, answer_pipelines};
use crate::given_schema::{SchemaCommand, answer_schema};
use crate::laws::each_answer;
use answer_writer::{Outside, Stop, put_line};
use event_schema::Schema;
use pipeline_model::Pipeline;
use query_lang::Builder;
use rule_convert::BackendName;
use rule_convert::named::convert_node;
use sig_base::{Fault, Limits, Text};
use std::alloc::Global;
use yaml_tree::Node;

/// Converts for the backend what pipelines make of each rule, under the schema or else the one that is made of it.
#[derive(Drop)]
struct Convert<'c, 's> {
    backend: BackendName,
    pipelines: &'c [Pipeline],
    schema: Option<&'s Schema>,
}

impl TreeCommand for Convert<'_, '_> {
    ghost gives = { λ c limits. ConvertGives c.backend limits c.pipelines.now (option_map (λ s. s.now) c.schema) };

    ghost pipelines = { λ c. c.pipelines.now };

    ghost stands = { λ c. EachOf IsWholePipeline c.pipelines.now };

    fn answer<W: Outside, B: Builder>(
        &self,
        alloc: Global,
        limits: &Limits,
        name: &Text,
        node: &Node,
        outside: &mut W,
        builder: &mut B,
    ) -> Result<bool, Stop> {
        self.each_tree();
        match convert_node(
            self.backend,
            alloc,
            limits,
            self.pipelines,
            self.schema,
            node,
            builder,
        ) {
            Ok(query) => put_line(query.into_vec(), outside),
            Err(Fault::Refused(refusal)) => put_refusal(alloc, name, &refusal, outside),
            Err(Fault::Memory) => Err(Stop::Memory),
        }
    }

    fn each_tree(&self) {
        rule_model::lone_rules();
    }
}

/// Converts the rules of files, under the pipelines of a file if one is named.
#[derive(Drop)]
struct ConvertFiles<'l, 'p, 'r> {
    backend: BackendName,
    limits: &'l Limits,
    pipelines: &'p Option<Text>,
    rules: &'r [Text],
}

impl PipelineCommand for ConvertFiles<'_, '_, '_> {
    ghost by_made = { λ c. RulesBySome (ConvertGives c.backend c.limits.now) c.limits.now c.rules.now };

    ghost own_names = { λ c. c.rules.now };

    ghost own_events = { λ c. false };

    fn answer_made<W: Outside, B: Builder>(
        &self,
        alloc: Global,
        pipelines: &[Pipeline],
        given: Option<&Schema>,
        outside: &mut W,
        builder: &mut B,
    ) -> Result<bool, Stop> {
        let command = Convert {
            backend: self.backend,
            pipelines,
            schema: given,
        };
        answer_files(alloc, &command, self.limits, self.rules, outside, builder)
    }

    fn each_made(&self) {
        each_answer();
    }
}

impl SchemaCommand for ConvertFiles<'_, '_, '_> {
    ghost by = { λ c. PipedBuilder (RulesBySome (ConvertGives c.backend c.limits.now) c.limits.now c.rules.now) c.limits.now c.pipelines.now };

    ghost names = { λ c. names_with c.pipelines.now c.rules.now };

    ghost events = { λ c. false };

    fn answer<W: Outside, B: Builder>(
        &self,
        alloc: Global,
        given: Option<&Schema>,
        outside: &mut W,
        builder: &mut B,
    ) -> Result<bool, Stop> {
        answer_pipelines(
            alloc,
            self.limits,
            self,
            self.pipelines,
            given,
            outside,
            builder,
        )
    }

    fn each_under(&self) {
        each_answer();
        pipeline_files::one_outcome();
    }
}

/// Answers the rule files for the backend, under the pipelines of a file if one is named and under the schema of a file if one is named.
pub(crate) fn answer_convert<W: Outside, B: Builder>(
    alloc: Global,
    backend: BackendName,
    limits: &Limits,
    schema: &Option<Text>,
    pipelines: &Option<Text>,
    rules: &[Text],
    outside: &mut W,
    builder: &mut B,
) -> Result<bool, Stop>
    ensures { Ends (record { names = names_with schema.now (names_with pipelines.now rules.now); events = false })
        (UnderBuilder (PipedBuilder (RulesBySome (ConvertGives backend limits.now) limits.now rules.now) limits.now pipelines.now) limits.now schema.now (B.refused builder.old) (B.refused builder.new) (is_ended result)) result (W.state outside.old) (W.state outside.new) }
{
    answer_schema(
        alloc,
        limits,
        &ConvertFiles {
            backend,
            limits,
            pipelines,
            rules,
        },
        schema,
        outside,
        builder,
    )
}
