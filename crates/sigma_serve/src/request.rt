//! What the words ask for.

use rule_convert::BackendName;
use sig_base::{Text, Texts};

/// A command with its files.
#[derive(Drop, Debug)]
pub enum Request {
    /// Tell which documents are rules.
    Check {
        rules: Texts,
    },
    /// Write the query of what the pipelines of a file, if one is named, make of each, in the language of a backend and under the schema of
    /// a file if one is named.
    Convert {
        backend: BackendName,
        schema: Option<Text>,
        pipelines: Option<Text>,
        rules: Texts,
    },
    /// Write the events that what the pipelines of a file, if one is named, make of the rule matches, read under the schema of a file if one
    /// is named.
    Run {
        schema: Option<Text>,
        pipelines: Option<Text>,
        rule: Text,
    },
    /// Write the events that the query of a file selects, in the language of a backend and read under the schema of a file.
    Query {
        backend: BackendName,
        schema: Text,
        query: Text,
    },
    /// Write the reports that the correlations of files make of the events, read under the schema of a file: they name the rules of these files,
    /// of which the pipelines of a file, if one is named, make those that are run.
    Correlate {
        schema: Text,
        pipelines: Option<Text>,
        rules: Texts,
    },
    /// Compare a rule with its queries over so many events, all of them made from a number.
    Generate {
        seed: u32,
        events: u32,
    },
}
