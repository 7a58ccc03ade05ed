//! Rules converted by a backend that goes by its name, and what their queries mean.

ghost use Rattle.std.specs.Prelude.{List, Option, IfSome, option_map};
ghost use Rattle.event_schema.specs.Lists.{EachOf};
ghost use Rattle.event_schema.specs.Schemas.{IsSchema};
ghost use Rattle.event_schema.specs.declared.schema.Schema.{Schema as SchemaData};
ghost use Rattle.pipeline_run.specs.Chained.{Makes};
ghost use Rattle.pipeline_run.specs.Kept.{IsWholePipeline};
ghost use Rattle.pipeline_model.specs.declared.pipeline.Pipeline.{Pipeline as PipelineData};
ghost use Rattle.rule_regex.specs.ForUnbuilt.{ForUnbuilt, is_answered};
ghost use Rattle.rule_regex.specs.Unbuilt.{Unbuilt};
ghost use Rattle.rule_model.specs.Plain.{PlainRule};
ghost use Rattle.rule_convert.specs.NamedQueries.{query_of, Converts, IsConverted, ConvertAnswers};
ghost use Rattle.rule_convert.specs.declared.backend_name.BackendName.{BackendName as NameData};
ghost use Rattle.sig_base.specs.declared.limits.Limits.{Limits as LimitsData};
ghost use Rattle.yaml_tree.specs.Texts.{HasScalarTexts};
ghost use Rattle.yaml_tree.specs.Tree.{Tree};
ghost use Rattle.yaml_tree.specs.View.{node_view};

use crate::backend_name::BackendName;
use crate::{conversion, laws};
use event_schema::Schema;
use lucene_writer::LuceneText;
use pipeline_model::Pipeline;
use query_lang::Builder;
use sig_base::{Bytes, Fault, Limits};
use sqlite_writer::Sqlite;
use std::alloc::Global;
use yaml_tree::Node;

/// The query of the rule that a node is in the language of the backend, refused as `convert_node` says.
pub fn convert_node<C: Builder>(
    backend: BackendName,
    alloc: Global,
    limits: &Limits,
    pipelines: &[Pipeline],
    given: Option<&Schema>,
    node: &Node,
    builder: &mut C,
) -> Result<Bytes, Fault>
    requires { EachOf IsWholePipeline pipelines.now }
    ensures { ForUnbuilt (Makes limits.now pipelines.now) limits.now (node_view node.now) (C.refused builder.old) (C.refused builder.new) (is_answered result)
        (λ unbuilt. ConvertAnswers backend unbuilt limits.now pipelines.now (option_map (λ s. s.now) given.entry) (node_view node.now) result) }
{
    match backend {
        BackendName::Sqlite => conversion::convert_node(
            &Sqlite, alloc, limits, pipelines, given, node, builder,
        ),
        BackendName::Lucene => conversion::convert_node(
            &LuceneText,
            alloc,
            limits,
            pipelines,
            given,
            node,
            builder,
        ),
    }
}

/// The query of each rule that has one means the rule, whichever the backend.
pub fn queries_mean_rules()
    ensures { (backend : NameData) (unbuilt : Unbuilt) (limits : LimitsData) (ps : List PipelineData) (given : Option SchemaData) (t : Tree) (made : PlainRule) → IfSome given IsSchema
        → HasScalarTexts t → EachOf IsWholePipeline ps → IsConverted backend unbuilt limits ps given t made → Converts backend limits given made (query_of backend given made) }
{
    laws::queries_mean_rules::<Sqlite>();
    laws::queries_mean_rules::<LuceneText>();
}
