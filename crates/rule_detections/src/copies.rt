//! Copies of items and detections.

ghost use Rattle.std.specs.Prelude.{◌≡◌, IfOk, IfErr};

use crate::detection::Detection;
use crate::item::{Fields, Item};
use sig_base::{Fault, Text, TryCopy};
use std::alloc::Global;

impl TryCopy for Fields {
    fn try_copy(&self, alloc: Global) -> Result<Fields, Fault> {
        match self {
            Fields::Keyword => Ok(Fields::Keyword),
            Fields::Names(names) => Ok(Fields::Names(names.try_copy(alloc)?)),
        }
    }
}

impl Item {
    /// The same item; only want of memory is answered.
    pub fn copy(&self, alloc: Global) -> Result<Item, Fault>
        ensures ok { IfOk result (λ i. i ≡ self.now) }
        ensures err { IfErr result (λ e. e ≡ Fault.Memory) }
    {
        let fields = self.fields.try_copy(alloc)?;
        let tests = self.tests.try_copy(alloc)?;
        Ok(Item {
            fields,
            tests,
            joined: self.joined,
            place: self.place,
        })
    }
}

impl TryCopy for Item {
    fn try_copy(&self, alloc: Global) -> Result<Item, Fault> {
        self.copy(alloc)
    }
}

impl Detection {
    /// The same detection; only want of memory is answered.
    pub fn copy(&self, alloc: Global) -> Result<Detection, Fault>
        ensures ok { IfOk result (λ d. d ≡ self.now) }
        ensures err { IfErr result (λ e. e ≡ Fault.Memory) }
    {
        let name = Text::copy(alloc, self.name.as_str())?;
        let alternatives = self.alternatives.try_copy(alloc)?;
        Ok(Detection {
            name,
            alternatives,
            place: self.place,
        })
    }
}

impl TryCopy for Detection {
    fn try_copy(&self, alloc: Global) -> Result<Detection, Fault> {
        self.copy(alloc)
    }
}
