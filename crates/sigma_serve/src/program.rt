//! The top call: the whole program over a shelf, a source and two sinks.

ghost use Rattle.std.specs.Prelude.{◌≡◌, ℕ, List};
ghost use Rattle.answer_writer.specs.Input.{World};
ghost use Rattle.answer_writer.specs.Stands.{Ends};
ghost use Rattle.sigma_serve.specs.Answers.{Answers, needs_of};
ghost use Rattle.sigma_serve.specs.Served.{RefusedTexts, Serves, IsAnswered, Tells, Headline, inputs_of, streams_of};
ghost use Rattle.sigma_serve.specs.UnderSchema.{is_ended};
ghost use Rattle.sigma_serve.specs.Words.{IsUnaccepted};

use crate::commands::check::Check;
use crate::commands::convert::answer_convert;
use crate::commands::correlate::answer_correlate;
use crate::commands::generate::answer_generate;
use crate::commands::query::answer_query;
use crate::commands::run::answer_run;
use crate::files::answer_files;
use crate::laws::{each_answer, one_answer, queries_mean_rules};
use crate::request::Request;
use crate::status::Status;
use crate::words::read_words;
use answer_writer::{Lent, Outside, Stop, tell_diagnostic};
use query_lang::Builder;
use sig_base::{Limits, Shelf, Sink, Source, Text};
use std::alloc::Global;

/// Does what the words say: answers on `out` and `err`, and tells how the run ended.
pub fn serve<F: Shelf, S: Source, O: Sink, E: Sink, B: Builder>(
    alloc: Global,
    words: &[Text],
    limits: &Limits,
    shelf: &mut F,
    events: &mut S,
    out: &mut O,
    err: &mut E,
    builder: &mut B,
) -> Status
    // All that is said of a run: what it has written where it comes to its end, when the words aren't accepted, the cause of each fault and
    // what stands behind one, and which events stay.
    ensures serves { Serves limits.now (record { before = B.refused builder.old; after = B.refused builder.new }) words.now result
        (inputs_of F.files F.failed S.left S.faults shelf.old events.old) (inputs_of F.files F.failed S.left S.faults shelf.new events.new)
        (streams_of O.taken O.faults E.taken E.faults out.old err.old) (streams_of O.taken O.faults E.taken E.faults out.new err.new) }

    // And of it this first: each rule has its query, which means the rule, or its diagnostic.
    ensures headline { IsAnswered result → (world : World) → Tells words.now (inputs_of F.files F.failed S.left S.faults shelf.old events.old) world
        → Headline limits.now (record { before = B.refused builder.old; after = B.refused builder.new }) words.now world
        (streams_of O.taken O.faults E.taken E.faults out.old err.old) (streams_of O.taken O.faults E.taken E.faults out.new err.new) }
{
    serve_lent(alloc, words, limits, shelf, events, out, err, builder)
}

/// The same, over what is lent as one.
fn serve_lent<F: Shelf, S: Source, O: Sink, E: Sink, B: Builder>(
    alloc: Global,
    words: &[Text],
    limits: &Limits,
    shelf: &mut F,
    events: &mut S,
    out: &mut O,
    err: &mut E,
    builder: &mut B,
) -> Status
    ensures { Serves limits.now (record { before = B.refused builder.old; after = B.refused builder.new }) words.now result
        (inputs_of F.files F.failed S.left S.faults shelf.old events.old) (inputs_of F.files F.failed S.left S.faults shelf.new events.new)
        (streams_of O.taken O.faults E.taken E.faults out.old err.old) (streams_of O.taken O.faults E.taken E.faults out.new err.new) }
{
    let mut outside = Lent {
        shelf,
        events,
        out,
        err,
    };
    answer_words(alloc, words, limits, &mut outside, builder)
}

fn answer_words<W: Outside, B: Builder>(
    alloc: Global,
    words: &[Text],
    limits: &Limits,
    outside: &mut W,
    builder: &mut B,
) -> Status
    ensures serves { Serves limits.now (record { before = B.refused builder.old; after = B.refused builder.new }) words.now result (W.state outside.old).inputs (W.state outside.new).inputs (W.state outside.old).streams (W.state outside.new).streams }
    ensures kept { (W.state outside.new).references ≡ (W.state outside.old).references }
{
    each_answer();
    one_answer();
    queries_mean_rules();
    let request = match read_words(alloc, words) {
        Ok(Some(request)) => request,
        Ok(None) => return refuse_words(outside),
        Err(_) => return Status::Memory,
    };
    match answer_request(alloc, &request, limits, outside, builder) {
        Ok(false) => Status::Done,
        Ok(true) => Status::Found,
        Err(Stop::Unread) => Status::ReadFault,
        Err(Stop::Unwritten) => Status::WriteFault,
        Err(Stop::Memory) => Status::Memory,
    }
}

/// Tells that the words aren't accepted.
fn refuse_words<W: Outside>(outside: &mut W) -> Status
    ensures serves { (limits : Limits) (texts : RefusedTexts) (words : List (List ℕ)) → IsUnaccepted words
        → Serves limits texts words result (W.state outside.old).inputs (W.state outside.new).inputs (W.state outside.old).streams (W.state outside.new).streams }
    ensures kept { (W.state outside.new).references ≡ (W.state outside.old).references }
{
    match tell_diagnostic(b"sigma: bad usage\n", outside) {
        Ok(_) => Status::Usage,
        Err(Stop::Unwritten) => Status::WriteFault,
        Err(_) => Status::Memory,
    }
}

/// Answers a request.
fn answer_request<W: Outside, B: Builder>(
    alloc: Global,
    request: &Request,
    limits: &Limits,
    outside: &mut W,
    builder: &mut B,
) -> Result<bool, Stop>
    ensures { Ends (needs_of request.now) (Answers limits.now (B.refused builder.old) (B.refused builder.new) (is_ended result) request.now) result (W.state outside.old) (W.state outside.new) }
{
    pipeline_files::one_outcome();
    match request {
        Request::Check { rules } => {
            answer_files(alloc, &Check, limits, rules.as_slice(), outside, builder)
        }
        Request::Convert {
            backend,
            schema,
            pipelines,
            rules,
        } => answer_convert(
            alloc,
            *backend,
            limits,
            schema,
            pipelines,
            rules.as_slice(),
            outside,
            builder,
        ),
        Request::Run {
            schema,
            pipelines,
            rule,
        } => answer_run(alloc, limits, schema, pipelines, rule, outside, builder),
        Request::Query {
            backend,
            schema,
            query,
        } => answer_query(alloc, *backend, limits, schema, query, outside, builder),
        Request::Correlate {
            schema,
            pipelines,
            rules,
        } => answer_correlate(
            alloc,
            limits,
            schema,
            pipelines,
            rules.as_slice(),
            outside,
            builder,
        ),
        Request::Generate { seed, events } => { answer_generate(alloc, *seed, *events, outside) }
    }
}
