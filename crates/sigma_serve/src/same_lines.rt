//! `run` of a rule and `query` of what `convert` wrote for it answer the same.

ghost use Rattle.sigma_serve.specs.SameLines.{SameLines, SameWithoutRefusals, SameByLucene};

use crate::laws::queries_mean_rules;
use lucene_read::LuceneReader;
use query_lang::Language;
use sql_read::SqlReader;

/// Where `convert` wrote the query of a rule under a schema and under pipelines, or none, `run` of the rule under the same ones and `query` of what
/// was written, under this schema and with the same events, write the same and end alike, unless `query` refuses a regular expression of the query
/// that the builder refused, or `run` one of the rule, of what the pipelines make of it, or of the file of pipelines.
pub fn run_as_queried()
    ensures lines { SameLines }
    ensures without_refusals { SameWithoutRefusals }
    ensures lucene { SameByLucene }
{
    queries_mean_rules();
    event_read::events_are_kept();
    rule_model::lone_rules();
    rule_model::refused_as_built();
    rule_regex::refused_where_unbuilt();
    rule_run::one_run();
    pipeline_files::one_outcome();
    yaml_documents::laws::verdicts();
    yaml_documents::laws::one_verdict();
    sql_read::line_feed_behind();
    lucene_read::line_feed_behind();
    SqlReader::law();
    LuceneReader::law();
}
