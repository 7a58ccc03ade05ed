//! Reading the query of a file.

ghost use Rattle.std.specs.Prelude.{◌≡◌, ◌<◌, length};
ghost use Rattle.query_read.specs.Answers.{AskAnswers};
ghost use Rattle.query_read.specs.Asked.{IsAsked, IsNotAsked, most_bytes};

use event_schema::Schema;
use query_lang::{Builder, Language};
use sig_base::{Code, Fault, Limits, Place, refused};
use std::alloc::Global;

/// The query that a file of these bytes is asked of events as, under a schema. It's refused 2 where it has two bytes or more past
/// what a query may have, since a line feed may stand behind one, and else as its language refuses it.
pub fn read_query<L: Language, B: Builder>(
    alloc: Global,
    limits: &Limits,
    schema: &Schema,
    bytes: &[u8],
    builder: &mut B,
) -> Result<L::Query, Fault>
    ensures answers { AskAnswers (λ places q. IsAsked L.is_query L.is_within L.refuses limits.now schema.now places bytes.now (L.plain q))
        (λ places r. IsNotAsked L.is_query L.is_within L.refuses limits.now schema.now places bytes.now r)
        (L.patterns bytes.now) (B.refused builder.old) (B.refused builder.new) result }
    ensures large { most_bytes limits.now < length bytes.now → B.refused builder.new ≡ B.refused builder.old }
{
    if bytes.len() > limits.query_bytes + 1 {
        return Err(refused(Code::TOO_LARGE, Place::START));
    }
    L::read(alloc, limits, schema, bytes, builder)
}
