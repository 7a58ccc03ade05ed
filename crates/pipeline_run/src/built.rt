//! What follows of documents that are read as pipelines.

ghost use Rattle.std.specs.Prelude.{◌≡◌, List, None};
ghost use Rattle.sig_base.specs.declared.limits.Limits.{Limits};
ghost use Rattle.sig_base.specs.declared.refusal.Place.{Place};
ghost use Rattle.yaml_tree.specs.Texts.{HasScalarTexts};
ghost use Rattle.yaml_tree.specs.Tree.{Tree};
ghost use Rattle.pipeline_model.specs.Checks.{pipeline_refusal};
ghost use Rattle.pipeline_model.specs.Pipelines.{IsPipeline};
ghost use Rattle.pipeline_model.specs.declared.pipeline.Pipeline.{Pipeline};
ghost use Rattle.pipeline_run.specs.Kept.{IsWholePipeline};

use rule_detections::{keyword_tests, one_tests, plain_tests, some_test, tests_or_refusal};

/// A document is one pipeline, if any.
pub fn one_pipeline()
    ensures { (t : Tree) (p q : Pipeline) → IsPipeline t p → IsPipeline t q → p ≡ q }
{
    one_tests();
}

/// A document that no line of the tables refuses is a pipeline.
pub fn pipeline_or_refusal()
    ensures { (unbuilt : List Place) (limits : Limits) (t : Tree) → pipeline_refusal unbuilt limits t ≡ None → (p : Pipeline) × IsPipeline t p }
{
    tests_or_refusal();
}

/// A pipeline that a document is makes whole rules of whole rules: its mappings have targets, its variables have values, each
/// without U+0000, the items that it adds are whole, and there are some.
pub fn pipelines_are_whole()
    ensures { (unbuilt : List Place) (limits : Limits) (t : Tree) (p : Pipeline) → pipeline_refusal unbuilt limits t ≡ None → HasScalarTexts t
        → IsPipeline t p → IsWholePipeline p }
{
    plain_tests();
    some_test();
    keyword_tests();
}
