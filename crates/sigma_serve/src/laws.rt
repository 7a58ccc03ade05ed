//! That words are one request at most, that each request has exactly one answer, and that each rule's query means the rule.

ghost use Rattle.std.specs.Prelude.{◌≡◌, ◌↔◌, List, ℕ, Some};
ghost use Rattle.sigma_serve.specs.Laws.{AsksUnlessUnrun, AsksNoneUnschemed, AsksNoneUnpiped, EachDocument, EachFile, EachConverted, EachCorrelated, EachQueried, EachRan, EachSelected, EachAnswer, OneDocument, OneFile, OneAnswer, OfBoth, QueriesMean, AnswersMean};
ghost use Rattle.sigma_serve.specs.Words.{IsAccepted, read};
ghost use Rattle.sigma_serve.specs.declared.request.Request.{Request};

use lucene_read::LuceneReader;
use query_lang::Language;
use sql_read::SqlReader;

/// The words are accepted as the request that is read word by word, and as no other.
pub fn words_are_read()
    ensures { (words : List (List ℕ)) (request : Request) → IsAccepted words request ↔ (read words ≡ Some request) }
{}

/// Each document of a rule file has an answer, and so has each file, each file that is run, each line of events, what follows rule files
/// whose rules are correlated, and each request.
pub fn each_answer()
    ensures document { OfBoth EachDocument }
    ensures file { OfBoth EachFile }
    ensures converted { EachConverted }
    ensures ran { EachRan }
    ensures queried { EachQueried }
    ensures selected { EachSelected }
    ensures correlated { EachCorrelated }
    ensures request { EachAnswer }
{
    rule_model::lone_rules();
    rule_run::one_run();
    detection_eval::matches_or_not();
    query_read::asked_once::<SqlReader>();
    query_read::asked_once::<LuceneReader>();
    SqlReader::law();
    LuceneReader::law();
    yaml_documents::laws::verdicts();
    pipeline_files::one_outcome();
    correlation_files::one_outcome();
    correlation_files::one_binding();
    correlation_run::one_follower();
    generate_run::generated_lines();
}

/// A document has at most one answer, and so each file and each request.
pub fn one_answer()
    ensures document { OfBoth OneDocument }
    ensures file { OfBoth OneFile }
    ensures request { OneAnswer }
{
    rule_model::lone_rules();
    rule_run::one_run();
    query_read::asked_once::<SqlReader>();
    query_read::asked_once::<LuceneReader>();
    yaml_documents::laws::verdicts();
    yaml_documents::laws::one_verdict();
    pipeline_files::one_outcome();
    correlation_files::one_outcome();
    correlation_files::one_binding();
    correlation_run::one_follower();
    generate_run::generated_lines();
}

/// The answer to `run` asks for events exactly where neither the schema nor the pipelines are refused and the file is run.
pub fn asks_for_events()
    ensures run { AsksUnlessUnrun }
    ensures schema { AsksNoneUnschemed }
    ensures pipelines { AsksNoneUnpiped }
{
    rule_run::one_run();
    pipeline_files::one_outcome();
}

/// The query of each rule that `convert` answers means the rule.
pub fn queries_mean_rules()
    ensures file { QueriesMean }
    ensures request { AnswersMean }
{
    event_read::schemas_are_kept();
    rule_convert::named::queries_mean_rules();
    yaml_documents::bounds::texts_are_scalars();
    pipeline_files::one_outcome();
}
