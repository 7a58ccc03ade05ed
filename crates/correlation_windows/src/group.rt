//! Groups of matches: the texts of the fields that matches are grouped by.

ghost use Rattle.std.specs.Prelude.{◌≡◌, true, encode_utf8_all, IfOk, IfErr};
ghost use Rattle.std.specs.List.{flat_map};
ghost use Rattle.std.specs.Cmp.Lexicographic.{pointwise, lists_equiv, lists_per, nat_list_eq_equiv};
ghost use Rattle.std.specs.Cmp.{partial_equiv_from_equiv};
ghost use Rattle.std.specs.Str.{bytes_eq};
ghost use Rattle.correlation_windows.specs.Groups.{same_group, group_writes, group_writes_same};

use sig_base::{Fault, Text, Texts, TryCopy};
use std::alloc::Global;
use std::hash::{Hash, Hasher};
use std::marker::Model;

/// The texts of a group, which contracts see as a list.
#[derive(Drop, Debug)]
pub struct Group {
    texts: Texts,
}

impl Model for Group {
    ghost use Rattle.std.specs.Prelude.{List, ℕ};

    ghost Value = { List (List ℕ) };

    ghost view = { λ g. g.texts };
}

impl Group {
    /// The group of these texts.
    pub fn of(texts: Texts) -> Group
        ensures { result ≡ texts }
    {
        Group { texts }
    }

    /// The texts, without a copy.
    pub fn into_texts(self) -> Texts
        ensures { result ≡ self }
    {
        self.texts
    }

    /// The texts once more; only want of memory is answered.
    pub fn texts(&self, alloc: Global) -> Result<Texts, Fault>
        ensures ok { IfOk result (λ texts. texts ≡ self.now) }
        ensures err { IfErr result (λ e. e ≡ Fault.Memory) }
    {
        self.texts.try_copy(alloc)
    }

    /// Lends the texts.
    pub fn as_slice(&self) -> &[Text]
        ensures { result.now ≡ self.now }
    {
        self.texts.as_slice()
    }
}

impl PartialEq for Group {
    ghost eq = { same_group };

    ghost laws = { partial_equiv_from_equiv (lists_equiv nat_list_eq_equiv) };

    fn eq(&self, other: &Group) -> bool {
        self.as_slice() == other.as_slice()
    }
}

impl Eq for Group {
    ghost laws = { lists_equiv nat_list_eq_equiv };
}

impl Hash for Group {
    ghost hash_input = { group_writes };

    ghost respects_eq = { group_writes_same };

    fn hash<H: Hasher>(&self, state: &mut H) {
        self.as_slice().hash(state);
    }
}
