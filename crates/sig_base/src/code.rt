//! What a refusal is about: the codes, their numbers and their names.

ghost use Rattle.std.specs.Prelude.{◌≡◌, IsTrue, option_map};
ghost use Rattle.sig_base.specs.Codes.{code_name, is_code, name_in, reading_codes, rule_codes, query_codes};

use std::marker::Model;

/// The cause of a refusal: a number and a name of the table `code_names`.
#[derive(Clone, Copy, Debug, PartialEq, Eq)]
pub struct Code(u16);

impl Model for Code {
    ghost use Rattle.std.specs.Prelude.{ℕ, IsTrue};
    ghost use Rattle.sig_base.specs.Codes.{is_code};

    ghost Value = { ℕ };

    ghost view = { λ c. c.0 };

    ghost invariant = { λ c. IsTrue (is_code c.0) };

    ghost inverse = { λ n. record { 0 = n } };
}

impl Code {
    /// The file isn't UTF-8; at the first bad byte.
    pub const NOT_UTF8: Code = Code(1);

    /// A file past its limit.
    pub const TOO_LARGE: Code = Code(2);

    /// A form of YAML that is left out.
    pub const UNSUPPORTED: Code = Code(3);

    /// No reading as YAML.
    pub const SYNTAX: Code = Code(4);

    /// A key equal to an earlier one of its map.
    pub const DUPLICATE_KEY: Code = Code(5);

    /// A collection past the depth.
    pub const TOO_DEEP: Code = Code(6);

    /// More documents than the limit.
    pub const TOO_MANY_DOCUMENTS: Code = Code(7);

    /// A tab in indentation.
    pub const TAB: Code = Code(8);

    /// An escape that isn't known.
    pub const BAD_ESCAPE: Code = Code(9);

    /// For a form that isn't built: all are, so nothing is refused with it.
    pub const NOT_BUILT: Code = Code(10);

    /// Not JSON.
    pub const SCHEMA_JSON: Code = Code(20);

    /// A key, kind or value that a schema doesn't take.
    pub const SCHEMA_SHAPE: Code = Code(21);

    /// Two names equal after folding.
    pub const SCHEMA_REPEAT: Code = Code(22);

    /// Too many fields, or a schema past its limit.
    pub const SCHEMA_LIMIT: Code = Code(23);

    /// A schema without a time.
    pub const SCHEMA_NO_TIME: Code = Code(24);

    /// A line that isn't a JSON object.
    pub const EVENT_JSON: Code = Code(25);

    /// A value of a kind that the field doesn't take.
    pub const EVENT_KIND: Code = Code(26);

    /// A whole number out of range.
    pub const EVENT_RANGE: Code = Code(27);

    /// A text with U+0000.
    pub const EVENT_NUL: Code = Code(28);

    /// An event without a moment.
    pub const NO_MOMENT: Code = Code(29);

    /// An event line past its limit.
    pub const LINE_TOO_LONG: Code = Code(30);

    /// More event bytes than the limit.
    pub const TOO_MUCH: Code = Code(31);

    /// A modifier that isn't known; the word.
    pub const UNKNOWN_MODIFIER: Code = Code(40);

    /// Known modifiers in a chain that isn't allowed.
    pub const CHAIN_NOT_ALLOWED: Code = Code(41);

    /// A value that the chain doesn't take.
    pub const VALUE_NOT_ALLOWED: Code = Code(42);

    /// An encoding of a pattern with a wildcard.
    pub const WILDCARD_IN_ENCODING: Code = Code(43);

    /// Not an IPv4 network.
    pub const BAD_NETWORK: Code = Code(44);

    /// A comparison with -2^63.
    pub const NUMBER_RANGE: Code = Code(45);

    /// More dash places than the limit.
    pub const TOO_MANY_DASHES: Code = Code(46);

    /// A regular expression with no reading.
    pub const REGEX_SYNTAX: Code = Code(47);

    /// A regular expression that wasn't built.
    pub const REGEX_REFUSED: Code = Code(48);

    /// A value of too many characters.
    pub const VALUE_TOO_LONG: Code = Code(49);

    /// U+0000 in a value.
    pub const NUL_IN_VALUE: Code = Code(50);

    /// A condition with no reading.
    pub const CONDITION_SYNTAX: Code = Code(60);

    /// An aggregation of the old form.
    pub const OLD_AGGREGATION: Code = Code(61);

    /// A condition nested too deep.
    pub const CONDITION_DEPTH: Code = Code(62);

    /// A name that no detection has; the name.
    pub const UNKNOWN_NAME: Code = Code(63);

    /// A selector that takes no name.
    pub const NOTHING_TAKEN: Code = Code(64);

    /// A required key is missing.
    pub const MISSING_KEY: Code = Code(70);

    /// A node of the wrong kind, or a name that isn't allowed.
    pub const WRONG_SHAPE: Code = Code(71);

    /// Not a title.
    pub const BAD_TITLE: Code = Code(72);

    /// Not a rule id.
    pub const BAD_ID: Code = Code(73);

    /// Not a date.
    pub const BAD_DATE: Code = Code(74);

    /// Not a status.
    pub const BAD_STATUS: Code = Code(75);

    /// Not a level.
    pub const BAD_LEVEL: Code = Code(76);

    /// A detection without content.
    pub const EMPTY_DETECTION: Code = Code(77);

    /// An empty list.
    pub const EMPTY_LIST: Code = Code(78);

    /// More values than the limit.
    pub const TOO_MANY_VALUES: Code = Code(79);

    /// One field with two kinds.
    pub const KIND_CONFLICT: Code = Code(80);

    /// A field that the schema hasn't.
    pub const UNKNOWN_FIELD: Code = Code(81);

    /// A test that the field's kind doesn't take.
    pub const KIND_MISMATCH: Code = Code(82);

    /// A keyword, and no field to search.
    pub const NO_SEARCH_FIELD: Code = Code(83);

    /// Not exactly one rule.
    pub const NOT_ONE_RULE: Code = Code(84);

    /// A key or value that a pipeline doesn't take.
    pub const PIPELINE_SHAPE: Code = Code(90);

    /// A step that isn't known; the word.
    pub const UNKNOWN_STEP: Code = Code(91);

    /// A condition that isn't known.
    pub const UNKNOWN_CONDITION: Code = Code(92);

    /// An id twice in one pipeline.
    pub const REPEATED_ID: Code = Code(93);

    /// A pipeline refused the rule; its message.
    pub const RULE_FAILURE: Code = Code(95);

    /// A pipeline refused an item; its message.
    pub const ITEM_FAILURE: Code = Code(96);

    /// A detection is left without items.
    pub const EMPTIED_DETECTION: Code = Code(97);

    /// A placeholder without a value.
    pub const OPEN_PLACEHOLDER: Code = Code(98);

    /// A rule grew past the limit.
    pub const GROWN: Code = Code(99);

    /// More leaves than the limit; both numbers.
    pub const TOO_MANY_LEAVES: Code = Code(110);

    /// A test that the backend lacks; the lack.
    pub const LACKS: Code = Code(111);

    /// A query past the depth; both numbers.
    pub const QUERY_TOO_DEEP: Code = Code(112);

    /// More clauses than the limit; both numbers.
    pub const TOO_MANY_CLAUSES: Code = Code(113);

    /// More query bytes than the limit; both numbers.
    pub const QUERY_TOO_LONG: Code = Code(114);

    /// No SQL query of the fragment.
    pub const SQL_SYNTAX: Code = Code(120);

    /// A token outside the SQL fragment.
    pub const SQL_OUTSIDE: Code = Code(121);

    /// A column that the schema hasn't.
    pub const SQL_UNKNOWN_COLUMN: Code = Code(122);

    /// A column of another kind.
    pub const SQL_KIND: Code = Code(123);

    /// SQL nested too deep.
    pub const SQL_DEPTH: Code = Code(124);

    /// A pattern that isn't allowed.
    pub const SQL_PATTERN: Code = Code(125);

    /// No Lucene query of the fragment.
    pub const LUCENE_SYNTAX: Code = Code(130);

    /// A token outside the Lucene fragment.
    pub const LUCENE_OUTSIDE: Code = Code(131);

    /// A field that the schema hasn't.
    pub const LUCENE_UNKNOWN_FIELD: Code = Code(132);

    /// A field of another kind.
    pub const LUCENE_KIND: Code = Code(133);

    /// AND and OR mixed in one group.
    pub const LUCENE_MIXED: Code = Code(134);

    /// Lucene nested too deep.
    pub const LUCENE_DEPTH: Code = Code(135);

    /// A key or value that a correlation doesn't take.
    pub const CORRELATION_SHAPE: Code = Code(140);

    /// A rule that isn't there.
    pub const UNKNOWN_RULE: Code = Code(141);

    /// Not a timespan.
    pub const BAD_TIMESPAN: Code = Code(142);

    /// An alias that lacks a rule or names no field.
    pub const BAD_ALIAS: Code = Code(143);

    /// A group field that the schema hasn't.
    pub const UNKNOWN_GROUP_FIELD: Code = Code(144);

    /// An event earlier than the last; both moments.
    pub const OUT_OF_ORDER: Code = Code(145);

    /// A correlation where a rule is wanted.
    pub const CORRELATION_HERE: Code = Code(146);

    /// An old form that can't be mended.
    pub const OLD_SHAPE: Code = Code(150);

    /// An old function.
    pub const OLD_FUNCTION: Code = Code(151);

    /// An old condition with no reading.
    pub const OLD_SYNTAX: Code = Code(152);

    /// An old condition without a timeframe.
    pub const NO_TIMEFRAME: Code = Code(153);

    /// An old rule without a name.
    pub const NO_REFERENCE: Code = Code(154);

    /// Not JSON.
    pub const DSL_JSON: Code = Code(160);

    /// Not a query of the DSL.
    pub const DSL_SHAPE: Code = Code(161);

    /// A field that the schema hasn't.
    pub const DSL_UNKNOWN_FIELD: Code = Code(162);

    /// A DSL query nested too deep.
    pub const DSL_DEPTH: Code = Code(163);

    /// A field of another kind.
    pub const DSL_KIND: Code = Code(164);

    /// Not a filter.
    pub const FILTER_SHAPE: Code = Code(170);

    /// A text past the limit when printed; both numbers.
    pub const FMT_TOO_LONG: Code = Code(180);

    /// The number that users see.
    pub fn number(&self) -> u16
        ensures number { result ≡ self.now }
        ensures known { IsTrue (is_code result) }
    {
        self.0
    }

    /// The name that users see; each code has one.
    pub fn name(&self) -> &'static str
        ensures { result.now ≡ code_name self.now }
    {
        match reading_name(self.0) {
            Some(name) => name,
            None => match rule_name(self.0) {
                Some(name) => name,
                None => match query_name(self.0) {
                    Some(name) => name,
                    None => "",
                },
            },
        }
    }
}

fn reading_name(number: u16) -> Option<&'static str>
    ensures { option_map (λ s. s.now) result ≡ name_in reading_codes number }
{
    match number {
        1 => Some("NotUtf8"),
        2 => Some("TooLarge"),
        3 => Some("Unsupported"),
        4 => Some("Syntax"),
        5 => Some("DuplicateKey"),
        6 => Some("TooDeep"),
        7 => Some("TooManyDocuments"),
        8 => Some("Tab"),
        9 => Some("BadEscape"),
        10 => Some("NotBuilt"),
        20 => Some("SchemaJson"),
        21 => Some("SchemaShape"),
        22 => Some("SchemaRepeat"),
        23 => Some("SchemaLimit"),
        24 => Some("SchemaNoTime"),
        25 => Some("EventJson"),
        26 => Some("EventKind"),
        27 => Some("EventRange"),
        28 => Some("EventNul"),
        29 => Some("NoMoment"),
        30 => Some("LineTooLong"),
        31 => Some("TooMuch"),
        40 => Some("UnknownModifier"),
        41 => Some("ChainNotAllowed"),
        42 => Some("ValueNotAllowed"),
        43 => Some("WildcardInEncoding"),
        44 => Some("BadNetwork"),
        45 => Some("NumberRange"),
        46 => Some("TooManyDashes"),
        47 => Some("RegexSyntax"),
        48 => Some("RegexRefused"),
        49 => Some("ValueTooLong"),
        50 => Some("NulInValue"),
        _ => None,
    }
}

fn rule_name(number: u16) -> Option<&'static str>
    ensures { option_map (λ s. s.now) result ≡ name_in rule_codes number }
{
    match number {
        60 => Some("ConditionSyntax"),
        61 => Some("OldAggregation"),
        62 => Some("ConditionDepth"),
        63 => Some("UnknownName"),
        64 => Some("NothingTaken"),
        70 => Some("MissingKey"),
        71 => Some("WrongShape"),
        72 => Some("BadTitle"),
        73 => Some("BadId"),
        74 => Some("BadDate"),
        75 => Some("BadStatus"),
        76 => Some("BadLevel"),
        77 => Some("EmptyDetection"),
        78 => Some("EmptyList"),
        79 => Some("TooManyValues"),
        80 => Some("KindConflict"),
        81 => Some("UnknownField"),
        82 => Some("KindMismatch"),
        83 => Some("NoSearchField"),
        84 => Some("NotOneRule"),
        90 => Some("PipelineShape"),
        91 => Some("UnknownStep"),
        92 => Some("UnknownCondition"),
        93 => Some("RepeatedId"),
        95 => Some("RuleFailure"),
        96 => Some("ItemFailure"),
        97 => Some("EmptiedDetection"),
        98 => Some("OpenPlaceholder"),
        99 => Some("Grown"),
        _ => None,
    }
}

fn query_name(number: u16) -> Option<&'static str>
    ensures { option_map (λ s. s.now) result ≡ name_in query_codes number }
{
    match number {
        110 => Some("TooManyLeaves"),
        111 => Some("Lacks"),
        112 => Some("QueryTooDeep"),
        113 => Some("TooManyClauses"),
        114 => Some("QueryTooLong"),
        120 => Some("SqlSyntax"),
        121 => Some("SqlOutside"),
        122 => Some("SqlUnknownColumn"),
        123 => Some("SqlKind"),
        124 => Some("SqlDepth"),
        125 => Some("SqlPattern"),
        130 => Some("LuceneSyntax"),
        131 => Some("LuceneOutside"),
        132 => Some("LuceneUnknownField"),
        133 => Some("LuceneKind"),
        134 => Some("LuceneMixed"),
        135 => Some("LuceneDepth"),
        140 => Some("CorrelationShape"),
        141 => Some("UnknownRule"),
        142 => Some("BadTimespan"),
        143 => Some("BadAlias"),
        144 => Some("UnknownGroupField"),
        145 => Some("OutOfOrder"),
        146 => Some("CorrelationHere"),
        150 => Some("OldShape"),
        151 => Some("OldFunction"),
        152 => Some("OldSyntax"),
        153 => Some("NoTimeframe"),
        154 => Some("NoReference"),
        160 => Some("DslJson"),
        161 => Some("DslShape"),
        162 => Some("DslUnknownField"),
        163 => Some("DslDepth"),
        164 => Some("DslKind"),
        170 => Some("FilterShape"),
        180 => Some("FmtTooLong"),
        _ => None,
    }
}
