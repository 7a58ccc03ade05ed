//! The modifiers, and their words.

ghost use Rattle.std.specs.Prelude.{◌≡◌, true};
ghost use Rattle.modifier_words.specs.Words as names;

use sig_base::Text;
use sig_encode::Form;

/// Where a modifier adds a run to a pattern, so that the rest of a text may stand there.
#[derive(Clone, Copy, Debug, PartialEq, Eq)]
pub enum Position {
    /// at both ends
    Around,
    /// at its end
    After,
    /// at its begin
    Before,
}

/// What a text is encoded as.
#[derive(Clone, Copy, Debug, PartialEq, Eq)]
pub enum Encoding {
    /// its base64 text
    Base64,
    /// the three pieces that stay of it wherever the text stands
    Base64Offset,
}

/// How a whole number stands to one that a rule gives.
#[derive(Clone, Copy, Debug, PartialEq, Eq)]
pub enum Op {
    /// below it
    Lt,
    /// at most it
    Lte,
    /// above it
    Gt,
    /// at least it
    Gte,
}

/// How a regular expression is read.
#[derive(Clone, Copy, Debug, PartialEq, Eq)]
pub enum Flag {
    /// letters match in either case
    IgnoreCase,
    /// `^` and `$` match at the ends of lines
    MultiLine,
    /// `.` matches a line feed too
    DotAll,
}

/// What a word behind a field's name asks for. What tells words of one kind apart is the kind's argument.
#[derive(Clone, Copy, Debug, PartialEq, Eq)]
pub enum Modifier {
    /// where in a text the pattern is looked for
    Position(Position),
    /// that all values are satisfied
    All,
    /// that texts are compared with regard to case
    Cased,
    /// that any dash may stand where a value has one before a word
    Windash,
    /// that `%name%` in a value is a placeholder, which a pipeline fills
    Expand,
    /// that the text is encoded in units of 16 bits
    Units(Form),
    /// that the text is looked for as it's encoded
    Encoding(Encoding),
    /// whether there is a value
    Exists,
    /// that the value is an address of a network
    Cidr,
    /// that the value is a whole number which stands so to this one
    Order(Op),
    /// that the value is that of another field
    Fieldref,
    /// that a regular expression is found in the value
    Re,
    /// how the regular expression is read
    Flag(Flag),
}

/// Whether all values of an item have to be satisfied, or one of them.
#[derive(Clone, Copy, Debug, PartialEq, Eq)]
pub enum Joined {
    All,
    Any,
}

/// Each word, and what it asks for.
const WORDS: [(&str, Modifier); 24] = [
    ("contains", Modifier::Position(Position::Around)),
    ("startswith", Modifier::Position(Position::After)),
    ("endswith", Modifier::Position(Position::Before)),
    ("all", Modifier::All),
    ("cased", Modifier::Cased),
    ("windash", Modifier::Windash),
    ("expand", Modifier::Expand),
    ("utf16le", Modifier::Units(Form::Le)),
    ("wide", Modifier::Units(Form::Le)),
    ("utf16be", Modifier::Units(Form::Be)),
    ("utf16", Modifier::Units(Form::Marked)),
    ("base64", Modifier::Encoding(Encoding::Base64)),
    ("base64offset", Modifier::Encoding(Encoding::Base64Offset)),
    ("exists", Modifier::Exists),
    ("cidr", Modifier::Cidr),
    ("lt", Modifier::Order(Op::Lt)),
    ("lte", Modifier::Order(Op::Lte)),
    ("gt", Modifier::Order(Op::Gt)),
    ("gte", Modifier::Order(Op::Gte)),
    ("fieldref", Modifier::Fieldref),
    ("re", Modifier::Re),
    ("i", Modifier::Flag(Flag::IgnoreCase)),
    ("m", Modifier::Flag(Flag::MultiLine)),
    ("s", Modifier::Flag(Flag::DotAll)),
];

/// The modifier that a word names in these rows.
fn modifier_in(rows: &[(&str, Modifier)], word: &Text) -> Option<Modifier>
    requires { names.are_ascii rows.now ≡ true }
    ensures { result ≡ names.modifier_in (names.rows_of rows.now) word.now }
{
    for row in rows {
        if word.is(row.0) {
            return Some(row.1);
        }
    }
    None
}

/// The modifier that a word names.
pub fn modifier_of(word: &Text) -> Option<Modifier>
    ensures { result ≡ names.modifier_of word.now }
{
    modifier_in(&WORDS, word)
}
