//! What Lucene lacks.

ghost use Rattle.std.specs.Prelude.{◌≡◌};
ghost use Rattle.backend_core.specs.Lacks.{first_lack};
ghost use Rattle.lucene_lang.specs.Faults as faults;
ghost use Rattle.lucene_writer.specs.Lacking as spec;

use crate::writer::LuceneText;
use backend_core::{Lack, Lacking, Leaf, LeafTest, is_many};
use event_schema::{Field, FieldKind, Schema};

/// Whether the field of this number keeps the case of its texts in a twin.
fn is_cased(fields: &[Field], number: u32) -> bool
    ensures { result ≡ spec.is_cased fields.now number }
{
    match fields.get(number as usize) {
        Some(field) => field.cased,
        None => false,
    }
}

fn is_whole_kind(kind: &FieldKind) -> bool
    ensures { result ≡ faults.is_whole kind.now }
{
    match kind {
        FieldKind::Text => false,
        FieldKind::Whole => true,
        FieldKind::Address => false,
    }
}

/// Whether the field of this number is of whole numbers.
fn is_whole(fields: &[Field], number: u32) -> bool
    ensures { result ≡ faults.is_whole_at fields.now number }
{
    match fields.get(number as usize) {
        Some(field) => is_whole_kind(&field.kind),
        None => false,
    }
}

/// What is lacking for a test of a field that has a twin, is of whole numbers, may have several values.
fn test_lacks(twin: bool, whole: bool, many: bool, test: &LeafTest) -> Option<Lack>
    ensures { result ≡ first_lack (spec.test_asks twin whole many test.now) }
{
    match test {
        LeafTest::Has | LeafTest::Absent => None,
        LeafTest::Equals(_) | LeafTest::Compare { .. } => None,
        LeafTest::Fits { pattern, cased } => {
            pattern_lacks(*cased && !twin, whole, many && pattern.parts().is_empty())
        }
        LeafTest::SameAs(_) => Some(Lack::FieldRef),
        LeafTest::Finds(_) => Some(Lack::Regex),
    }
}

fn pattern_lacks(cased: bool, whole: bool, empty: bool) -> Option<Lack>
    ensures { result ≡ first_lack (spec.pattern_asks cased whole empty) }
{
    if cased {
        return Some(Lack::Cased);
    }
    if whole {
        return Some(Lack::WholePattern);
    }
    if empty {
        return Some(Lack::EmptyText);
    }
    None
}

impl Lacking for LuceneText {
    ghost missing = { λ schema leaf. spec.lucene_lacks schema.fields leaf };

    /// A query has no regular expression and compares no field with another; a pattern by case needs a field's twin, a pattern a
    /// field of texts, and the empty text a field of one value.
    fn lacks(&self, schema: &Schema, leaf: &Leaf) -> Option<Lack>
        ensures { result ≡ spec.lucene_lacks schema.now.fields leaf.now }
    {
        let fields = schema.fields.as_slice();
        let twin = is_cased(fields, leaf.field);
        let whole = is_whole(fields, leaf.field);
        let many = is_many(fields, leaf.field);
        test_lacks(twin, whole, many, &leaf.test)
    }
}
