//! What follows from the definitions, for the proofs of callers.

ghost use Rattle.pipeline_files.specs.Laws.{EachFile, NeverBoth, OnePipelines, OneCauses, AreWhole};

/// Each file is pipelines, or refused for causes, in one way; and its pipelines are whole.
pub fn one_outcome()
    ensures each { EachFile }
    ensures never_both { NeverBoth }
    ensures pipelines { OnePipelines }
    ensures causes { OneCauses }
    ensures whole { AreWhole }
{
    pipeline_run::one_pipeline();
    pipeline_run::pipeline_or_refusal();
    pipeline_run::pipelines_are_whole();
    yaml_documents::laws::verdicts();
    yaml_documents::laws::one_verdict();
    yaml_documents::bounds::texts_are_scalars();
}
