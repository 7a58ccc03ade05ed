//! Names in order, each once. A few are compared one by one, and more are found in a set.

ghost use Rattle.std.specs.Prelude.{◌≡◌, ◌++◌, ◌∷◌, [], IfOk, IfErr, OnOk};
ghost use Rattle.pipeline_model.specs.Concerned as conditions;
ghost use Rattle.pipeline_rename.specs.Known.{AreKnown, AreKnownIfMany};
ghost use Rattle.pipeline_rename.specs.Made.{texts_made, AreUnfit};
ghost use Rattle.pipeline_rename.specs.Names as spec;

use crate::made::{Made, joined};
use crate::name_counts::FEW;
use crate::room::grown;
use event_schema::is_legal;
use sig_base::{Fault, Place, Text};
use std::alloc::Global;
use std::collections::BTreeSet;

/// How many names may be there, and where it's refused if there are more.
#[derive(Clone, Copy)]
pub struct NameLimit {
    pub names: usize,
    pub place: Place,
}

/// Names in order, and where they are more than a few, the set of them.
#[derive(Drop)]
pub struct NameList {
    pub names: Vec<Text>,
    pub known: BTreeSet<String>,
}

fn is_among(names: &[Text], name: &Text) -> bool
    ensures { result ≡ conditions.is_among names.now name.now }
{
    names.iter().any(|other| other.equals(name))
}

fn set_of(alloc: Global, names: &[Text]) -> Result<BTreeSet<String>, Fault>
    ensures ok { IfOk result (λ known. AreKnown names.now known) }
    ensures err { IfErr result (λ e. e ≡ Fault.Memory) }
{
    let mut known = BTreeSet::new(alloc);
    for name in names {
        let key = String::from_str(alloc, name.as_str())?;
        known.insert(key)?;
    }
    Ok(known)
}

impl NameList {
    pub fn new(alloc: Global) -> NameList
        ensures names { result.names.items ≡ [] }
        ensures known { AreKnownIfMany result.names.items result.known }
    {
        NameList {
            names: Vec::new(alloc),
            known: BTreeSet::new(alloc),
        }
    }

    fn contains(&self, name: &Text) -> bool
        requires { AreKnownIfMany self.now.names.items self.now.known }
        ensures { result ≡ conditions.is_among self.now.names.items name.now }
    {
        if self.names.len() <= FEW {
            return is_among(&self.names, name);
        }
        self.known.contains(name.as_str())
    }

    /// Makes the set where there's none yet.
    fn know(&mut self, alloc: Global) -> Result<(), Fault>
        requires { AreKnownIfMany self.old.names.items self.old.known }
        ensures names { OnOk result (self.new.names.items ≡ self.old.names.items) }
        ensures known { OnOk result (AreKnown self.new.names.items self.new.known) }
        ensures err { IfErr result (λ e. e ≡ Fault.Memory) }
    {
        if self.names.len() > FEW {
            return Ok(());
        }
        self.known = set_of(alloc, &self.names)?;
        Ok(())
    }

    fn push_many(&mut self, alloc: Global, name: Text) -> Result<(), Fault>
        requires { AreKnown self.old.names.items self.old.known }
        ensures names { OnOk result (self.new.names.items ≡ self.old.names.items ++ name ∷ []) }
        ensures known { OnOk result (AreKnown self.new.names.items self.new.known) }
        ensures err { IfErr result (λ e. e ≡ Fault.Memory) }
    {
        let key = String::from_str(alloc, name.as_str())?;
        self.known.insert(key)?;
        self.names.push(name)?;
        Ok(())
    }

    fn push(&mut self, alloc: Global, name: Text) -> Result<(), Fault>
        requires { AreKnownIfMany self.old.names.items self.old.known }
        ensures names { OnOk result (self.new.names.items ≡ self.old.names.items ++ name ∷ []) }
        ensures known { OnOk result (AreKnownIfMany self.new.names.items self.new.known) }
        ensures err { IfErr result (λ e. e ≡ Fault.Memory) }
    {
        if self.names.len() < FEW {
            self.names.push(name)?;
            return Ok(());
        }
        self.know(alloc)?;
        self.push_many(alloc, name)
    }

    /// Refuses a name for which there is no room, or which isn't legal.
    #[tactic(auto, using(crate::proofs::NameLists::no_room, crate::proofs::NameLists::not_legal))]
    fn judge(&self, limit: NameLimit, name: &Text) -> Result<(), Fault>
        ensures unfit { IfErr result (AreUnfit limit.place limit.names (self.now.names.items ++ name.now ∷ [])) }
    {
        if self.names.len() >= limit.names {
            return Err(grown(limit.place));
        }
        if !is_legal(name) {
            return Err(grown(limit.place));
        }
        Ok(())
    }

    /// Adds the name behind the others, unless it is one of them.
    #[tactic(auto, using(crate::proofs::NameLists::unfit_new))]
    fn add(&mut self, alloc: Global, limit: NameLimit, name: Text) -> Result<(), Fault>
        requires { AreKnownIfMany self.old.names.items self.old.known }
        ensures ok { OnOk result (self.new.names.items ≡ spec.with_name self.old.names.items name) }
        ensures known { OnOk result (AreKnownIfMany self.new.names.items self.new.known) }
        ensures unfit { IfErr result (AreUnfit limit.place limit.names (spec.with_name self.old.names.items name)) }
    {
        if self.contains(&name) {
            return Ok(());
        }
        self.judge(limit, &name)?;
        self.push(alloc, name)
    }

    /// Adds a copy of the text behind the others, unless it is one of them, however many there are.
    fn put(&mut self, alloc: Global, text: &Text) -> Result<(), Fault>
        requires { AreKnownIfMany self.old.names.items self.old.known }
        ensures ok { OnOk result (self.new.names.items ≡ spec.with_name self.old.names.items text.now) }
        ensures known { OnOk result (AreKnownIfMany self.new.names.items self.new.known) }
        ensures err { IfErr result (λ e. e ≡ Fault.Memory) }
    {
        if self.contains(text) {
            return Ok(());
        }
        self.push(alloc, Text::copy(alloc, text.as_str())?)
    }

    #[tactic(auto, using(crate::proofs::NameLists::more_added, crate::proofs::NameLists::unfit_with))]
    fn add_each(
        &mut self,
        alloc: Global,
        limit: NameLimit,
        prefixes: &[Text],
        back: &Text,
    ) -> Result<(), Fault>
        requires { AreKnownIfMany self.old.names.items self.old.known }
        ensures ok { OnOk result (self.new.names.items ≡ spec.with_names self.old.names.items (spec.each_before prefixes.now back.now)) }
        ensures known { OnOk result (AreKnownIfMany self.new.names.items self.new.known) }
        ensures unfit { IfErr result (AreUnfit limit.place limit.names (spec.with_names self.old.names.items (spec.each_before prefixes.now back.now))) }
    {
        for front in prefixes {
            self.add(alloc, limit, joined(alloc, front, back)?)?;
        }
        Ok(())
    }

    /// Adds what is made of a name.
    pub fn add_made(&mut self, alloc: Global, limit: NameLimit, made: Made) -> Result<(), Fault>
        requires { AreKnownIfMany self.old.names.items self.old.known }
        ensures ok { OnOk result (self.new.names.items ≡ spec.with_names self.old.names.items (texts_made made.entry)) }
        ensures known { OnOk result (AreKnownIfMany self.new.names.items self.new.known) }
        ensures unfit { IfErr result (AreUnfit limit.place limit.names (spec.with_names self.old.names.items (texts_made made.entry))) }
    {
        match made {
            Made::One(text) => self.add(alloc, limit, text),
            Made::Each { prefixes, back } => self.add_each(alloc, limit, prefixes, &back),
        }
    }
}

/// The texts without those that stand there before.
#[tactic(auto, using(crate::proofs::NameLists::name_turn))]
pub fn distinct(alloc: Global, texts: &[Text]) -> Result<Vec<Text>, Fault>
    ensures ok { IfOk result (λ all. all.items ≡ spec.with_names [] texts.now) }
    ensures err { IfErr result (λ e. e ≡ Fault.Memory) }
{
    let mut list = NameList::new(alloc);
    for text in texts {
        list.put(alloc, text)?;
    }
    let NameList { names, known: _ } = list;
    Ok(names)
}
