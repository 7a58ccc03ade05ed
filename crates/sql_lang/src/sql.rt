//! The language of SQL queries.

use query_lang::QueryLanguage;

/// SQL, as SQLite reads it: queries of one table, whose rows have the first value of each field.
#[derive(Clone, Copy, Debug)]
pub struct Sql;

impl QueryLanguage for Sql {
    ghost use Rattle.sql_lang.specs.Expression.{Expr};
    ghost use Rattle.sql_lang.specs.Reading.{Reads};
    ghost use Rattle.sql_lang.specs.Queries.{IsWithin, Picks};

    ghost Plain = { Expr };

    ghost is_query = { Reads };

    ghost is_within = { IsWithin };

    ghost picks = { Picks };

    fn law() {
        crate::laws::one_reading();
    }
}
