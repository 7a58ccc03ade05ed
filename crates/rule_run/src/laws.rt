//! What follows from the definitions, for the proofs of callers.

ghost use Rattle.rule_run.specs.Laws.{EachRun, NeverBoth, OneRun, OneCause};

/// Each file is run as one rule under these pipelines, or it isn't run for one cause.
pub fn one_run()
    ensures each { EachRun }
    ensures never_both { NeverBoth }
    ensures one { OneRun }
    ensures cause { OneCause }
{
    rule_model::lone_rules();
    yaml_documents::laws::verdicts();
    yaml_documents::laws::one_verdict();
}
