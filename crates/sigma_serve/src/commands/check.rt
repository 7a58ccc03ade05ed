//! `check`: which documents are rules or correlations.

ghost use Rattle.std.specs.Prelude.{◌≡◌, [], ⊤, List};
ghost use Rattle.answer_writer.specs.Stands.{Writes};
ghost use Rattle.pipeline_model.specs.declared.pipeline.Pipeline.{Pipeline};
ghost use Rattle.rule_regex.specs.Unbuilt.{Unbuilt};
ghost use Rattle.sig_base.specs.declared.limits.Limits.{Limits as LimitsData};
ghost use Rattle.sigma_serve.specs.Check.{CheckGives};
ghost use Rattle.sigma_serve.specs.Laws.{EachTree};
ghost use Rattle.sigma_serve.specs.RuleFiles.{BySome};
ghost use Rattle.sigma_serve.specs.UnderSchema.{is_ended};
ghost use Rattle.yaml_tree.specs.View.{node_view};

use crate::documents::{TreeCommand, put_refusal};
use crate::report::ok_text;
use answer_writer::{Outside, Stop, put_text};
use correlation_files::check_document;
use query_lang::Builder;
use sig_base::{Fault, Limits, Text};
use std::alloc::Global;
use yaml_tree::Node;

/// Tells the place of each rule and of each correlation.
#[derive(Drop)]
pub(crate) struct Check;

impl TreeCommand for Check {
    ghost gives = { λ c. CheckGives };

    ghost pipelines = { λ c. [] };

    ghost stands = { λ c. ⊤ };

    fn answer<W: Outside, B: Builder>(
        &self,
        alloc: Global,
        limits: &Limits,
        name: &Text,
        node: &Node,
        outside: &mut W,
        builder: &mut B,
    ) -> Result<bool, Stop> {
        self.each_tree();
        match check_document(alloc, limits, node, builder) {
            Ok(place) => match ok_text(alloc, name, place) {
                Ok(text) => put_text(text.as_bytes(), outside),
                Err(_) => Err(Stop::Memory),
            },
            Err(Fault::Refused(refusal)) => put_refusal(alloc, name, &refusal, outside),
            Err(Fault::Memory) => Err(Stop::Memory),
        }
    }

    fn each_tree(&self) {}
}
