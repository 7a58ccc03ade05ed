//! Where a part of a query stands, and lists of parts.

ghost use Rattle.std.specs.Prelude.{◌≡◌};
ghost use Rattle.sqlite_writer.specs.Pieces as pieces;

/// As the whole or in an OR, in an AND, or behind NOT.
#[derive(Clone, Copy, Debug)]
pub(crate) enum Standing {
    InOr,
    InAnd,
    BehindNot,
}

/// All of some parts or any of them.
#[derive(Clone, Copy, Debug)]
pub(crate) enum Kind {
    All,
    Any,
}

/// How many parts stand in a row; longer lists are written in halves.
pub(crate) const MOST_IN_A_ROW: usize = 64;

/// Where the parts of a list stand.
pub(crate) fn standing_in(kind: Kind) -> Standing
    ensures { result ≡ pieces.standing_in kind }
{
    match kind {
        Kind::All => Standing::InAnd,
        Kind::Any => Standing::InOr,
    }
}

/// Whether parentheses stand around a list that stands here.
pub(crate) fn is_enclosed(kind: Kind, at: Standing) -> bool
    ensures { result ≡ pieces.is_enclosed kind at }
{
    match (kind, at) {
        (Kind::All, Standing::InOr | Standing::InAnd) => false,
        (Kind::All, Standing::BehindNot) => true,
        (Kind::Any, Standing::InOr) => false,
        (Kind::Any, Standing::InAnd | Standing::BehindNot) => true,
    }
}
