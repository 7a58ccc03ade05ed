//! Reading rule files whose rules are correlated.

ghost use Rattle.std.specs.Prelude.{◌≡◌, ◌∷◌, [], List, ℕ, IfOk, IfErr};
ghost use Rattle.std.specs.List.{All};
ghost use Rattle.correlation_files.specs.Found.{Grows};
ghost use Rattle.correlation_files.specs.Outcomes.{Outcome, AreOutcomes, refusals_in};
ghost use Rattle.correlation_files.specs.Places.{ForFile};
ghost use Rattle.correlation_files.specs.Read.{ForDocuments, AreRead};
ghost use Rattle.rule_regex.specs.ForUnbuilt.{is_answered};
ghost use Rattle.yaml_documents.specs.Given.{IsPlain, answers_view};

use crate::found::Found;
use crate::single::read_document;
use event_schema::Schema;
use pipeline_model::Pipeline;
use query_lang::Builder;
use sig_base::{Fault, Limits, Refusal, Sequence, Text};
use std::alloc::Global;
use yaml_documents::read_documents;
use yaml_tree::Document;

/// Reads each of these documents of a file, also behind one that is refused.
fn read_each<B: Builder>(
    alloc: Global,
    limits: &Limits,
    pipelines: &[Pipeline],
    schema: &Schema,
    file: &Text,
    documents: &[Document],
    found: &mut Found,
    builder: &mut B,
) -> Result<Sequence<Refusal>, Fault>
    requires { All IsPlain documents.now }
    ensures read { ForDocuments limits.now pipelines.now (answers_view documents.now) (B.refused builder.old) (B.refused builder.new) (is_answered result)
        (λ placed. IfOk result (λ refusals. AreRead limits.now pipelines.now schema.now file.now placed refusals found.old found.new)) }
    ensures err { IfErr result (λ e. e ≡ Fault.Memory) }
{
    let mut refusals = Sequence::new(alloc);
    for document in documents {
        let taken = read_document(alloc, limits, pipelines, schema, document, builder);
        match found.keep(alloc, file, taken, &mut refusals) {
            Ok(()) => {}
            Err(_) => return Err(Fault::Memory),
        }
    }
    Ok(refusals)
}

/// The one refusal of a file as a whole.
fn refuse_whole(alloc: Global, refusal: Refusal) -> Result<Sequence<Refusal>, Fault>
    ensures ok { IfOk result (λ refusals. refusals ≡ refusal ∷ []) }
    ensures err { IfErr result (λ e. e ≡ Fault.Memory) }
{
    let mut refusals = Sequence::new(alloc);
    refusals.push(refusal)?;
    Ok(refusals)
}

/// Reads the documents of a file, whose regular expressions are built first, and adds to what was found: the rules that these pipelines,
/// run as they stand here, make of its rules, each made ready for the schema, and the correlations. Gives the refusals of the other
/// documents, in their order: by YAML; of a rule as a rule, by the pipelines, 98, 81, 82 or 83, and 48 at an item; of a correlation those of
/// its head, 140 and 142. A file that is refused 2, 1 or 7 as a whole gives that refusal alone. Only want of memory is a fault.
pub fn read_rules<B: Builder>(
    alloc: Global,
    limits: &Limits,
    pipelines: &[Pipeline],
    schema: &Schema,
    file: &Text,
    bytes: &[u8],
    found: &mut Found,
    builder: &mut B,
) -> Result<Sequence<Refusal>, Fault>
    ensures file { ForFile limits.now pipelines.now bytes.now (B.refused builder.old) (B.refused builder.new) (is_answered result)
        (λ unbuilt. IfOk result (λ refusals. (outcomes : List Outcome) × AreOutcomes limits.now pipelines.now schema.now unbuilt bytes.now outcomes
        × (refusals ≡ refusals_in outcomes) × Grows schema.now file.now outcomes found.old found.new)) }
    ensures err { IfErr result (λ e. e ≡ Fault.Memory) }
{
    yaml_documents::laws::verdicts();
    yaml_documents::laws::one_verdict();
    match read_documents(alloc, limits, bytes) {
        Ok(documents) => {
            let all = documents.as_slice();
            read_each(alloc, limits, pipelines, schema, file, all, found, builder)
        }
        Err(Fault::Refused(refusal)) => refuse_whole(alloc, refusal),
        Err(Fault::Memory) => Err(Fault::Memory),
    }
}
