//! A text, which contracts see as the list of its characters.

ghost use Rattle.std.specs.Prelude.{◌≡◌, ◌++◌, ◌∷◌, [], true, encode_utf8_all, string_bytes, IfOk, IfErr, OnOk, OnErr};
ghost use Rattle.std.specs.Str.{chars, all_scalars, bytes_eq};
ghost use Rattle.std.proofs.Common.{rules};
ghost use Rattle.std.specs.Cmp.Rules.{comparing, hashing};
ghost use Rattle.std.specs.Hash as fed;
ghost use Rattle.sig_base.specs.Texts.{is_ascii};

use crate::refusal::Fault;
use std::alloc::{AllocError, Global};
use std::hash::{Hash, Hasher};
use std::marker::Model;

/// A text of any length.
#[derive(Drop, Debug)]
pub struct Text {
    inner: String,
}

impl Model for Text {
    ghost use Rattle.std.specs.Prelude.{List, ℕ};
    ghost use Rattle.std.specs.String.{string_bytes};
    ghost use Rattle.std.specs.Str.{chars};

    ghost Value = { List ℕ };

    ghost view = { λ t. chars (string_bytes t.inner) };
}

impl PartialEq for Text {
    ghost eq = { bytes_eq };

    ghost laws = { Prim.search (comparing, rules) };

    fn eq(&self, other: &Text) -> bool {
        self.as_str() == other.as_str()
    }
}

impl Eq for Text {
    ghost laws = { Prim.search (comparing, rules) };
}

impl Hash for Text {
    ghost hash_input = { λ t. fed.str (encode_utf8_all t) };

    ghost respects_eq = { Prim.search (hashing, rules) };

    fn hash<H: Hasher>(&self, state: &mut H) {
        self.as_str().hash(state);
    }
}

impl Text {
    /// The empty text, which takes no memory.
    pub fn new(alloc: Global) -> Text
        ensures { result ≡ [] }
    {
        Text {
            inner: String::new(alloc),
        }
    }

    /// The same characters; only want of memory is answered.
    pub fn copy(alloc: Global, text: &str) -> Result<Text, Fault>
        ensures ok { IfOk result (λ t. t ≡ chars text.now) }
        ensures err { IfErr result (λ e. e ≡ Fault.Memory) }
    {
        Ok(Text {
            inner: String::from_str(alloc, text)?,
        })
    }

    /// The text of these characters, in one piece of memory where all are ASCII.
    pub fn from_chars(alloc: Global, all: &[char]) -> Result<Text, AllocError>
        ensures { IfOk result (λ t. t ≡ all.now) }
    {
        let mut text = Text::with_capacity(alloc, all.len())?;
        for c in all {
            text.push(*c)?;
        }
        Ok(text)
    }

    /// The empty text, with memory for this many bytes in UTF-8.
    pub fn with_capacity(alloc: Global, bytes: usize) -> Result<Text, AllocError>
        ensures { IfOk result (λ t. t ≡ []) }
    {
        Ok(Text {
            inner: String::with_capacity(alloc, bytes)?,
        })
    }

    /// The text of an owned string, without a copy.
    pub fn from_string(inner: String) -> Text
        ensures { result ≡ chars (string_bytes inner) }
    {
        Text { inner }
    }

    /// Lends the text.
    pub fn as_str(&self) -> &str
        ensures chars { chars result.now ≡ self.now }
        ensures bytes { result.now ≡ encode_utf8_all self.now }
        ensures scalars { all_scalars self.now ≡ true }
    {
        self.inner.as_str()
    }

    /// The text's bytes in UTF-8, without a copy.
    pub fn into_bytes(self) -> Vec<u8>
        ensures { result.items ≡ encode_utf8_all self }
    {
        self.inner.into_bytes()
    }

    /// Adds a character at the end, and leaves the text as it was where memory is missing.
    #[inline(always)]
    pub fn push(&mut self, c: char) -> Result<(), AllocError>
        ensures ok { OnOk result (self.new ≡ self.old ++ c ∷ []) }
        ensures err { OnErr result (self.new ≡ self.old) }
    {
        self.inner.push(c)
    }

    /// Adds characters at the end. Where memory is missing, the first of them may have been added.
    pub fn push_all(&mut self, all: &[char]) -> Result<(), AllocError>
        ensures { OnOk result (self.new ≡ self.old ++ all.now) }
    {
        for c in all {
            self.push(*c)?;
        }
        Ok(())
    }

    /// Adds a string at the end, and leaves the text as it was where memory is missing.
    pub fn push_str(&mut self, more: &str) -> Result<(), AllocError>
        ensures ok { OnOk result (self.new ≡ self.old ++ chars more.now) }
        ensures ascii { is_ascii more.now ≡ true → OnOk result (self.new ≡ self.old ++ more.now) }
        ensures err { OnErr result (self.new ≡ self.old) }
    {
        self.inner.push_str(more)
    }

    /// Whether both have the same characters.
    pub fn is(&self, text: &str) -> bool
        ensures same { result ≡ bytes_eq self.now (chars text.now) }
        ensures ascii { is_ascii text.now ≡ true → result ≡ bytes_eq self.now text.now }
    {
        self.as_str() == text
    }

    /// Whether both texts have the same characters.
    pub fn equals(&self, other: &Text) -> bool
        ensures { result ≡ bytes_eq self.now other.now }
    {
        self.is(other.as_str())
    }
}
