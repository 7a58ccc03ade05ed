//! Reading files of pipelines.

ghost use Rattle.std.specs.Prelude.{◌≡◌, ◌++◌, true, IfErr, OnOk};
ghost use Rattle.std.specs.List.{All};
ghost use Rattle.pipeline_files.specs.Gathered.{ForDocuments, AreAnswered, IsOneCause, read_of, refused_of, verdict_of};
ghost use Rattle.pipeline_files.specs.Outcomes.{ArePipelines, AreCauses};
ghost use Rattle.pipeline_files.specs.Places.{ForPipelines};
ghost use Rattle.pipeline_files.specs.Read.{Answers, is_answered};
ghost use Rattle.rule_regex.specs.ForUnbuilt.{is_answered as is_ended};
ghost use Rattle.yaml_documents.specs.Given.{IsPlain, answers_view};

use crate::single::read_document;
use pipeline_model::Pipeline;
use query_lang::Builder;
use sig_base::{Fault, Limits, Refusal, Sequence};
use std::alloc::Global;
use yaml_documents::read_documents;
use yaml_tree::Document;

/// Why a file is no list of pipelines: the refusals of all its documents that are refused, or one of the whole file, or want of
/// memory.
#[derive(Drop, Debug)]
pub enum FileFault {
    Refused(Sequence<Refusal>),
    Memory,
}

/// Keeps the pipeline that a document is, or the refusal for which it's none.
fn keep(
    found: Result<Pipeline, Fault>,
    pipelines: &mut Sequence<Pipeline>,
    refusals: &mut Sequence<Refusal>,
) -> Result<(), Fault>
    ensures ended { OnOk result (is_ended found ≡ true) }
    ensures pipelines { OnOk result (pipelines.new ≡ pipelines.old ++ read_of found) }
    ensures refusals { OnOk result (refusals.new ≡ refusals.old ++ refused_of found) }
{
    match found {
        Ok(pipeline) => pipelines.push(pipeline)?,
        Err(Fault::Refused(refusal)) => refusals.push(refusal)?,
        Err(Fault::Memory) => return Err(Fault::Memory),
    }
    Ok(())
}

/// All pipelines, unless something is refused.
fn verdict(
    pipelines: Sequence<Pipeline>,
    refusals: Sequence<Refusal>,
) -> Result<Sequence<Pipeline>, FileFault>
    ensures { result ≡ verdict_of pipelines refusals }
{
    if refusals.as_slice().is_empty() {
        return Ok(pipelines);
    }
    Err(FileFault::Refused(refusals))
}

/// Reads each of these documents, also behind one that is refused.
fn read_each<B: Builder>(
    alloc: Global,
    limits: &Limits,
    documents: &[Document],
    builder: &mut B,
) -> Result<Sequence<Pipeline>, FileFault>
    requires { All IsPlain documents.now }
    ensures { ForDocuments limits.now (answers_view documents.now) (B.refused builder.old) (B.refused builder.new) (is_answered result)
        (λ placed. AreAnswered limits.now placed result) }
{
    let mut pipelines = Sequence::new(alloc);
    let mut refusals = Sequence::new(alloc);
    for document in documents {
        let found = read_document(alloc, limits, document, builder);
        match keep(found, &mut pipelines, &mut refusals) {
            Ok(()) => {}
            Err(_) => return Err(FileFault::Memory),
        }
    }
    verdict(pipelines, refusals)
}

/// The file is refused as a whole.
fn refuse_whole(alloc: Global, refusal: Refusal) -> FileFault
    ensures { IsOneCause refusal result }
{
    let mut causes = Sequence::new(alloc);
    match causes.push(refusal) {
        Ok(()) => FileFault::Refused(causes),
        Err(_) => FileFault::Memory,
    }
}

/// The pipelines that the documents of a file are, in their order. The regular expressions of the items that they add are built first.
/// A file is refused 2, 1 or 7 as a whole; else each document is refused by YAML or as `Pipeline::read` says, and the other documents
/// are still read.
pub fn read_pipelines<B: Builder>(
    alloc: Global,
    limits: &Limits,
    bytes: &[u8],
    builder: &mut B,
) -> Result<Sequence<Pipeline>, FileFault>
    ensures { ForPipelines limits.now bytes.now (B.refused builder.old) (B.refused builder.new) (is_answered result)
        (λ unbuilt. Answers (ArePipelines unbuilt limits.now bytes.now) (AreCauses unbuilt limits.now bytes.now) result) }
{
    yaml_documents::laws::verdicts();
    yaml_documents::laws::one_verdict();
    match read_documents(alloc, limits, bytes) {
        Ok(documents) => read_each(alloc, limits, documents.as_slice(), builder),
        Err(Fault::Refused(refusal)) => Err(refuse_whole(alloc, refusal)),
        Err(Fault::Memory) => Err(FileFault::Memory),
    }
}
