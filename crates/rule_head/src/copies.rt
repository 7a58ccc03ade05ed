//! Copies of heads and log sources.

ghost use Rattle.std.specs.Prelude.{◌≡◌, IfOk, IfErr};
ghost use Rattle.rule_head.specs.Plain.{head_view};
ghost use Rattle.yaml_tree.specs.View.{entries_view};

use crate::head::Head;
use crate::source::LogSource;
use sig_base::{Fault, Text};
use std::alloc::Global;
use yaml_tree::Entry;

/// The same text, where there is one.
fn copy_text(alloc: Global, text: &Option<Text>) -> Result<Option<Text>, Fault>
    ensures ok { IfOk result (λ t. t ≡ text.now) }
    ensures err { IfErr result (λ e. e ≡ Fault.Memory) }
{
    match text {
        None => Ok(None),
        Some(text) => Ok(Some(Text::copy(alloc, text.as_str())?)),
    }
}

impl LogSource {
    /// The same log source; only want of memory is answered.
    pub fn copy(&self, alloc: Global) -> Result<LogSource, Fault>
        ensures ok { IfOk result (λ s. s ≡ self.now) }
        ensures err { IfErr result (λ e. e ≡ Fault.Memory) }
    {
        let category = copy_text(alloc, &self.category)?;
        let product = copy_text(alloc, &self.product)?;
        let service = copy_text(alloc, &self.service)?;
        Ok(LogSource {
            category,
            product,
            service,
        })
    }
}

/// Equal entries.
fn copy_entries(alloc: Global, entries: &[Entry]) -> Result<Vec<Entry>, Fault>
    ensures ok { IfOk result (λ es. entries_view es.items ≡ entries_view entries.now) }
    ensures err { IfErr result (λ e. e ≡ Fault.Memory) }
{
    let mut copies = Vec::new(alloc);
    for entry in entries {
        copies.push(entry.copy(alloc)?)?;
    }
    Ok(copies)
}

impl Head {
    /// The same head; only want of memory is answered.
    pub fn copy(&self, alloc: Global) -> Result<Head, Fault>
        ensures ok { IfOk result (λ h. head_view h ≡ head_view self.now) }
        ensures err { IfErr result (λ e. e ≡ Fault.Memory) }
    {
        let title = Text::copy(alloc, self.title.as_str())?;
        let id = copy_text(alloc, &self.id)?;
        let name = copy_text(alloc, &self.name)?;
        let rest = copy_entries(alloc, &self.rest)?;
        Ok(Head {
            title,
            id,
            name,
            place: self.place,
            rest,
        })
    }
}
