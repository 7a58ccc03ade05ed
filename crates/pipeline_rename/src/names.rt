//! The names of an item, each once.

ghost use Rattle.std.specs.Prelude.{◌≡◌, IfOk, IfErr, OnOk};
ghost use Rattle.pipeline_rename.specs.Known.{AreKnownIfMany};
ghost use Rattle.pipeline_rename.specs.Made.{AreUnfit};
ghost use Rattle.pipeline_rename.specs.Names as spec;
ghost use Rattle.pipeline_rename.specs.Renamed as renamed;

use crate::list::{NameLimit, NameList};
use crate::mapping::Renaming;
use sig_base::{Fault, Text};
use std::alloc::Global;

/// Adds what the step makes of the name.
fn add_for(
    alloc: Global,
    limit: NameLimit,
    list: &mut NameList,
    renaming: &Renaming,
    name: &Text,
) -> Result<(), Fault>
    requires { AreKnownIfMany list.old.names.items list.old.known }
    ensures ok { OnOk result (list.new.names.items ≡ spec.with_names list.old.names.items (spec.names_for renaming.now.step.now name.now)) }
    ensures known { OnOk result (AreKnownIfMany list.new.names.items list.new.known) }
    ensures unfit { IfErr result (AreUnfit limit.place limit.names (spec.with_names list.old.names.items (spec.names_for renaming.now.step.now name.now))) }
{
    let made = renaming.made_once(alloc, name)?;
    list.add_made(alloc, limit, made)
}

/// The names that the step makes of these, each once.
#[tactic(auto, using(crate::proofs::NameLists::turn_at, crate::proofs::NameLists::unfit_there))]
pub fn rename_names(
    alloc: Global,
    limit: NameLimit,
    renaming: &Renaming,
    names: &[Text],
) -> Result<Vec<Text>, Fault>
    ensures ok { IfOk result (λ v. v.items ≡ renamed.renamed_names (spec.names_for renaming.now.step.now) names.now) }
    ensures unfit { IfErr result (AreUnfit limit.place limit.names (renamed.renamed_names (spec.names_for renaming.now.step.now) names.now)) }
{
    let mut list = NameList::new(alloc);
    for name in names {
        add_for(alloc, limit, &mut list, renaming, name)?;
    }
    let NameList { names, known: _ } = list;
    Ok(names)
}
