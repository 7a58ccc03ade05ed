//! The limits within which files, rules and queries are read and written.

ghost use Rattle.std.specs.Prelude.{◌≡◌, ◌≤◌};

/// Each limit is at least 1 and at most its standard value.
#[derive(Clone, Copy)]
pub struct Limits {
    /// Bytes of a rule, pipeline or schema file.
    pub file_bytes: usize,
    /// Documents of a file.
    pub documents: usize,
    /// Collections around a node, itself included.
    pub yaml_depth: usize,
    /// Characters of a value as written.
    pub value_chars: usize,
    /// Values of one item, and elements of one detection's list.
    pub list_values: usize,
    /// Words `(` and `not` of one condition together.
    pub condition_words: usize,
    /// Dash places of one value.
    pub dashes: usize,
    /// Fields of a schema.
    pub schema_fields: usize,
    /// Names of all items of a rule together, and tests of all its items together.
    pub grown: usize,
    /// Leaves of a tree.
    pub leaves: usize,
    /// Depth of an SQL expression.
    pub sql_depth: usize,
    /// Open parentheses of a Lucene query.
    pub lucene_depth: usize,
    /// Leaf clauses of a Lucene query.
    pub lucene_clauses: usize,
    /// Bytes of a query without its last line feed.
    pub query_bytes: usize,
    /// Bytes of an event line.
    pub line_bytes: usize,
    /// Bytes of all events.
    pub events_bytes: usize,
    pub ghost file_bytes_in: { (1 ≤ file_bytes) × (file_bytes ≤ 1048576) },
    pub ghost documents_in: { (1 ≤ documents) × (documents ≤ 4096) },
    pub ghost yaml_depth_in: { (1 ≤ yaml_depth) × (yaml_depth ≤ 32) },
    pub ghost value_chars_in: { (1 ≤ value_chars) × (value_chars ≤ 8192) },
    pub ghost list_values_in: { (1 ≤ list_values) × (list_values ≤ 4096) },
    pub ghost condition_words_in: { (1 ≤ condition_words) × (condition_words ≤ 256) },
    pub ghost dashes_in: { (1 ≤ dashes) × (dashes ≤ 4) },
    pub ghost schema_fields_in: { (1 ≤ schema_fields) × (schema_fields ≤ 512) },
    pub ghost grown_in: { (1 ≤ grown) × (grown ≤ 16384) },
    pub ghost leaves_in: { (1 ≤ leaves) × (leaves ≤ 16384) },
    pub ghost sql_depth_in: { (1 ≤ sql_depth) × (sql_depth ≤ 1000) },
    pub ghost lucene_depth_in: { (1 ≤ lucene_depth) × (lucene_depth ≤ 1000) },
    pub ghost lucene_clauses_in: { (1 ≤ lucene_clauses) × (lucene_clauses ≤ 1024) },
    pub ghost query_bytes_in: { (1 ≤ query_bytes) × (query_bytes ≤ 4194304) },
    pub ghost line_bytes_in: { (1 ≤ line_bytes) × (line_bytes ≤ 65536) },
    pub ghost events_bytes_in: { (1 ≤ events_bytes) × (events_bytes ≤ 268435456) },
}

impl Limits {
    /// The values that the program runs with.
    pub fn standard() -> Limits
        ensures file_bytes { result.file_bytes ≡ 1048576 }
        ensures documents { result.documents ≡ 4096 }
        ensures yaml_depth { result.yaml_depth ≡ 32 }
        ensures value_chars { result.value_chars ≡ 8192 }
        ensures list_values { result.list_values ≡ 4096 }
        ensures condition_words { result.condition_words ≡ 256 }
        ensures dashes { result.dashes ≡ 4 }
        ensures schema_fields { result.schema_fields ≡ 512 }
        ensures grown { result.grown ≡ 16384 }
        ensures leaves { result.leaves ≡ 16384 }
        ensures sql_depth { result.sql_depth ≡ 1000 }
        ensures lucene_depth { result.lucene_depth ≡ 1000 }
        ensures lucene_clauses { result.lucene_clauses ≡ 1024 }
        ensures query_bytes { result.query_bytes ≡ 4194304 }
        ensures line_bytes { result.line_bytes ≡ 65536 }
        ensures events_bytes { result.events_bytes ≡ 268435456 }
    {
        Limits {
            file_bytes: 1_048_576,
            documents: 4096,
            yaml_depth: 32,
            value_chars: 8192,
            list_values: 4096,
            condition_words: 256,
            dashes: 4,
            schema_fields: 512,
            grown: 16_384,
            leaves: 16_384,
            sql_depth: 1000,
            lucene_depth: 1000,
            lucene_clauses: 1024,
            query_bytes: 4_194_304,
            line_bytes: 65_536,
            events_bytes: 268_435_456,
        }
    }
}
