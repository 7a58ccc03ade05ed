//! The characters of a text.

ghost use Rattle.std.specs.Prelude.{◌≡◌, length};
ghost use Rattle.std.specs.Str.{chars};
ghost use Rattle.sig_base.specs.Fronts.{FrontIs};

/// The first character of a text and what stands behind it, or `None` at the end of the text.
pub fn first_char(text: &str) -> Option<(char, &str)>
    ensures { FrontIs text.now result }
{
    let mut rest = text.chars();
    let Some(c) = rest.next() else {
        return None;
    };
    Some((c, rest.as_str()))
}

/// How many characters a text has.
pub fn count_of(text: &str) -> usize
    ensures { result ≡ length (chars text.now) }
{
    text.chars().count()
}
