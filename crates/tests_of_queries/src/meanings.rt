//! A language by its meanings, which needs no code.

ghost use Rattle.std.specs.Prelude.{◌≡◌, ◌≤◌, List, ℕ, length};
ghost use Rattle.event_schema.specs.Rows.{field_values};
ghost use Rattle.event_schema.specs.Lists.{HasElement};

use query_lang::QueryLanguage;
use std::test::Fail;

/// Bytes are the query of their length's field: it picks events in which this field has a value.
struct Lengths;

impl QueryLanguage for Lengths {
    ghost Plain = { ℕ };

    ghost is_query = { λ schema bytes k. k ≡ length bytes };

    ghost is_within = { λ limits schema bytes k. k ≤ limits.query_bytes };

    ghost picks = { λ k row. HasElement (field_values row k) };

    fn law() {}
}

/// What is said of one language holds of each.
fn one_query<L: QueryLanguage>() {
    L::law();
}

#[test]
fn languages_are_given_by_their_meanings(_rt: HostRuntime) -> Result<(), Fail> {
    one_query::<Lengths>();
    Ok(())
}
