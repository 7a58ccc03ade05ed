//! Steps over what is left of a line. None of them takes memory.

ghost use Rattle.std.specs.Prelude.{◌≡◌, ◌≤◌, ◌==◌, ◌||◌, ◌&&◌, length, drop};
ghost use Rattle.std.specs.List.{prefix_len};
ghost use Rattle.yaml_tree.specs.View.{place_view};
ghost use Rattle.yaml_inline.specs.File as file;
ghost use Rattle.yaml_inline.specs.Line as spec;
ghost use Rattle.yaml_inline.specs.View.{line_view};

use crate::line::Line;
use sig_base::Place;

/// The place of what is left of a line.
pub fn spot(line: &Line<'_>, rest: &[char]) -> Place
    requires { length rest.now ≤ length line.now.text.now }
    ensures { place_view result ≡ spec.spot (line_view line.now) rest.now }
{
    let before = line.text.len() - rest.len();
    Place {
        line: line.number,
        column: before as u32 + 1,
    }
}

/// A space or a tab.
pub fn is_blank(c: char) -> bool
    ensures { result ≡ file.is_blank c }
{
    c == ' ' || c == '\t'
}

/// What follows the first `count` characters.
pub fn behind(rest: &[char], count: usize) -> &[char]
    requires { count ≤ length rest.now }
    ensures { result.now ≡ drop count rest.now }
{
    rest.split_at(count).1
}

/// Whether this character comes next.
pub fn begins(c: char, rest: &[char]) -> bool
    ensures { result ≡ file.begins c rest.now }
{
    match rest.split_first() {
        None => false,
        Some((first, _)) => *first == c,
    }
}

/// Whether a blank comes next, or nothing.
pub fn blank_or_end(rest: &[char]) -> bool
    ensures { result ≡ file.blank_or_end rest.now }
{
    match rest.split_first() {
        None => true,
        Some((first, _)) => is_blank(*first),
    }
}

/// What is left behind blanks.
#[tactic(auto, unfolding(crate::specs::File::skip_blanks))]
pub fn skip_blanks(rest: &[char]) -> &[char]
    ensures rest { result.now ≡ file.skip_blanks rest.now }
    ensures within { length result.now ≤ length rest.now }
{
    behind(rest, count_blanks(rest))
}

/// How many blanks come next.
pub fn count_blanks(rest: &[char]) -> usize
    ensures len { result ≡ prefix_len file.is_blank rest.now }
    ensures within { result ≤ length rest.now }
{
    rest.iter().take_while(|c| is_blank(**c)).count()
}

/// Whether nothing but blanks and perhaps a comment is left.
#[tactic(auto, unfolding(crate::specs::File::carries_nothing))]
pub fn carries_nothing(rest: &[char]) -> bool
    ensures { result ≡ file.carries_nothing rest.now }
{
    let rest = skip_blanks(rest);
    rest.is_empty() || begins('#', rest)
}

/// Whether a value may end its line here.
#[tactic(auto, unfolding(crate::specs::File::ends_line))]
pub fn ends_line(rest: &[char]) -> bool
    ensures { result ≡ file.ends_line rest.now }
{
    blank_or_end(rest) && carries_nothing(rest)
}

/// Whether a plain scalar ends here.
pub fn stops(in_flow: bool, rest: &[char]) -> bool
    ensures { result ≡ spec.stops in_flow rest.now }
{
    match rest.split_first() {
        None => true,
        Some((first, others)) => {
            *first == ':' && blank_or_end(others)
                || is_blank(*first) && begins('#', others)
                || in_flow && is_flow(*first)
        }
    }
}

/// Whether a plain scalar may end at the character, which what follows it decides.
pub fn may_stop(in_flow: bool, c: char) -> bool
    ensures { result ≡ ((c == 58 || file.is_blank c) || (in_flow && spec.is_flow c)) }
{
    c == ':' || is_blank(c) || in_flow && is_flow(c)
}

/// Whether the character opens, parts or closes flow collections.
pub fn is_flow(c: char) -> bool
    ensures { result ≡ spec.is_flow c }
{
    c == ',' || c == '[' || c == ']' || c == '{' || c == '}'
}

/// Whether no plain scalar begins with the character.
pub fn is_indicator(c: char) -> bool
    ensures { result ≡ spec.is_indicator c }
{
    is_flow(c)
        || c == '#'
        || c == '&'
        || c == '*'
        || c == '!'
        || c == '|'
        || c == '>'
        || c == '\''
        || c == '"'
        || c == '%'
        || c == '@'
        || c == '`'
}

/// Whether a plain scalar begins here.
pub fn starts_plain(rest: &[char]) -> bool
    ensures { result ≡ spec.starts_plain rest.now }
{
    match rest.split_first() {
        None => false,
        Some((first, others)) => {
            let sign = *first == '-' || *first == '?' || *first == ':';
            !is_indicator(*first) && !(sign && blank_or_end(others))
        }
    }
}

/// Whether a dash with a blank or the end behind it comes next.
pub fn is_dash(rest: &[char]) -> bool
    ensures { result ≡ spec.is_dash rest.now }
{
    match rest.split_first() {
        None => false,
        Some((first, others)) => *first == '-' && blank_or_end(others),
    }
}

/// Whether a form comes next that is left out at a node or a key.
pub fn is_left_out(rest: &[char]) -> bool
    ensures { result ≡ spec.is_left_out rest.now }
{
    match rest.split_first() {
        None => false,
        Some((first, others)) => {
            (*first == '&' || *first == '*' || *first == '!')
                || *first == '?' && !others.is_empty() && blank_or_end(others)
        }
    }
}
