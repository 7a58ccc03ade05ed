//! What follows from the definitions, for the proofs of callers.

ghost use Rattle.correlation_files.specs.Laws.{EachDocument, OneDocument, EachFile, OneFile, EachJudged, OneJudged};

/// Each document of a rule file, and each file, has one outcome.
pub fn one_outcome()
    ensures document { EachDocument }
    ensures one_document { OneDocument }
    ensures file { EachFile }
    ensures one_file { OneFile }
{
    correlation_read::one_correlation();
    rule_model::lone_rules();
    yaml_documents::laws::verdicts();
    yaml_documents::laws::one_verdict();
}

/// Each correlation is bound or refused, in one way.
pub fn one_binding()
    ensures each { EachJudged }
    ensures one { OneJudged }
{
    correlation_read::one_bound();
}
