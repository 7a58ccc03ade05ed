//! The commands.

pub(super) mod check;
pub(super) mod convert;
pub(super) mod correlate;
pub(super) mod generate;
pub(super) mod query;
pub(super) mod run;
