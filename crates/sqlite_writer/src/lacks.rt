//! What SQLite lacks.

ghost use Rattle.std.specs.Prelude.{◌≡◌};
ghost use Rattle.sqlite_writer.specs.Guarded.{other_of};
ghost use Rattle.sqlite_writer.specs.Lacking as spec;

use crate::writer::Sqlite;
use backend_core::{Lack, Lacking, Leaf, LeafTest, is_many};
use event_schema::{Field, Schema};

/// Whether the further field of a test may have several values, if it looks at one.
fn is_other_many(fields: &[Field], test: &LeafTest) -> bool
    ensures { result ≡ spec.is_many_if_any fields.now (other_of test.now) }
{
    match test {
        LeafTest::Has
        | LeafTest::Absent
        | LeafTest::Fits { .. }
        | LeafTest::Equals(_)
        | LeafTest::Compare { .. }
        | LeafTest::Finds(_) => false,
        LeafTest::SameAs(other) => is_many(fields, *other),
    }
}

impl Lacking for Sqlite {
    ghost missing = { λ schema leaf. spec.sqlite_lacks schema.fields leaf };

    /// A column has one value, so a test that looks at a field that may have several can't be said.
    fn lacks(&self, schema: &Schema, leaf: &Leaf) -> Option<Lack>
        ensures { result ≡ spec.sqlite_lacks schema.now.fields leaf.now }
    {
        let fields = schema.fields.as_slice();
        if is_many(fields, leaf.field) || is_other_many(fields, &leaf.test) {
            return Some(Lack::Many);
        }
        None
    }
}
