//! `query`: the events that a query selects.

ghost use Rattle.std.specs.Prelude.{◌≡◌, ◌+◌, ◌∷◌, [], true, Some};
ghost use Rattle.answer_writer.specs.Stands.{Ends};
ghost use Rattle.query_read.specs.Asked.{most_bytes};
ghost use Rattle.sig_base.specs.Files.{IsFront};
ghost use Rattle.sigma_serve.specs.Languages as named;
ghost use Rattle.sigma_serve.specs.Queried.{AskedBy};
ghost use Rattle.sigma_serve.specs.UnderSchema.{UnderBuilder, is_ended};

use crate::documents::put_refusal;
use crate::given_schema::{SchemaCommand, answer_under};
use crate::laws::each_answer;
use answer_writer::{Outside, Stop, read_file, select_lines};
use event_schema::Schema;
use lucene_read::LuceneReader;
use query_lang::{Builder, Language};
use query_read::{asked_once, read_query};
use rule_convert::BackendName;
use sig_base::{Fault, Limits, Text};
use sql_read::SqlReader;
use std::alloc::Global;

/// Asks the query of a file, in the language of a backend.
#[derive(Drop)]
struct QueryFile<'l, 'q> {
    backend: BackendName,
    limits: &'l Limits,
    query: &'q Text,
}

impl SchemaCommand for QueryFile<'_, '_> {
    ghost by = { λ c before after ended. named.AskedBy c.backend c.limits.now c.query.now before after ended };

    ghost names = { λ c. c.query.now ∷ [] };

    ghost events = { λ c. true };

    fn answer<W: Outside, B: Builder>(
        &self,
        alloc: Global,
        given: Option<&Schema>,
        outside: &mut W,
        builder: &mut B,
    ) -> Result<bool, Stop> {
        self.each_under();
        let Some(schema) = given else {
            return Ok(false);
        };
        let most = self.limits.query_bytes + 1;
        match read_file(alloc, self.query, most + 1, outside) {
            Ok(bytes) => answer_named(
                self.backend,
                alloc,
                self.limits,
                schema,
                self.query,
                bytes.as_slice(),
                outside,
                builder,
            ),
            Err(stop) => Err(stop),
        }
    }

    fn each_under(&self) {
        each_answer();
    }
}

/// Answers the lines of the events by the query that a file's bytes are, or refuses them and ends.
fn answer_bytes<L: Language, W: Outside, B: Builder>(
    alloc: Global,
    limits: &Limits,
    schema: &Schema,
    file: &Text,
    bytes: &[u8],
    outside: &mut W,
    builder: &mut B,
) -> Result<bool, Stop>
where
    <L as Language>::Query: Drop,
    ensures { IsFront (W.state outside.old).inputs.files file.now (most_bytes limits.now + 1) bytes.now
        → Ends (record { names = file.now ∷ []; events = true })
        (AskedBy L.is_query L.is_within L.picks L.patterns L.refuses limits.now file.now (B.refused builder.old) (B.refused builder.new) (is_ended result) (Some schema.now))
        result (W.state outside.old) (W.state outside.new) }
{
    L::law();
    asked_once::<L>();
    match read_query::<L, B>(alloc, limits, schema, bytes, builder) {
        Ok(query) => select_lines::<L, W>(alloc, limits, schema, &query, outside),
        Err(Fault::Refused(cause)) => put_refusal(alloc, file, &cause, outside),
        Err(Fault::Memory) => Err(Stop::Memory),
    }
}

/// The same in the language of the backend of this name.
fn answer_named<W: Outside, B: Builder>(
    backend: BackendName,
    alloc: Global,
    limits: &Limits,
    schema: &Schema,
    file: &Text,
    bytes: &[u8],
    outside: &mut W,
    builder: &mut B,
) -> Result<bool, Stop>
    ensures { IsFront (W.state outside.old).inputs.files file.now (most_bytes limits.now + 1) bytes.now
        → Ends (record { names = file.now ∷ []; events = true })
        (named.AskedBy backend limits.now file.now (B.refused builder.old) (B.refused builder.new) (is_ended result) (Some schema.now))
        result (W.state outside.old) (W.state outside.new) }
{
    match backend {
        BackendName::Sqlite => {
            answer_bytes::<SqlReader, W, B>(alloc, limits, schema, file, bytes, outside, builder)
        }
        BackendName::Lucene => {
            answer_bytes::<LuceneReader, W, B>(alloc, limits, schema, file, bytes, outside, builder)
        }
    }
}

/// Answers the events that the query of a file selects, read under the schema of a file.
pub(crate) fn answer_query<W: Outside, B: Builder>(
    alloc: Global,
    backend: BackendName,
    limits: &Limits,
    schema: &Text,
    query: &Text,
    outside: &mut W,
    builder: &mut B,
) -> Result<bool, Stop>
    ensures { Ends (record { names = schema.now ∷ query.now ∷ []; events = true })
        (UnderBuilder (named.AskedBy backend limits.now query.now) limits.now (Some schema.now) (B.refused builder.old) (B.refused builder.new) (is_ended result))
        result (W.state outside.old) (W.state outside.new) }
{
    let command = QueryFile {
        backend,
        limits,
        query,
    };
    answer_under(alloc, limits, &command, schema, outside, builder)
}
