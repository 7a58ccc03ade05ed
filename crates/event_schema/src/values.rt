//! The values of one field of an event.

ghost use Rattle.std.specs.Prelude.{◌≡◌, [], ◌∷◌, IfOk, IfErr};
ghost use Rattle.std.specs.Option.{option_copied};
ghost use Rattle.event_schema.specs.Rows.{first_value};
ghost use Rattle.event_schema.specs.Values.{kept_values};

use crate::value::Value;
use sig_base::Fault;
use std::alloc::Global;
use std::marker::Model;
use std::slice;

/// How values are kept: only several take memory besides their own.
#[derive(Drop, Debug)]
enum Kept {
    Nothing,
    One(Value),
    Several(Vec<Value>),
}

/// The values that a field has, in their order, which contracts see as a list.
#[derive(Drop, Debug)]
pub struct FieldValues {
    kept: Kept,
}

impl Model for FieldValues {
    ghost use Rattle.std.specs.Prelude.{List};
    ghost use Rattle.event_schema.specs.declared.value.Value as single;
    ghost use Rattle.event_schema.specs.Values.{kept_values};

    ghost Value = { List single.Value };

    ghost view = { λ f. kept_values f.kept };
}

fn copy_all(alloc: Global, values: &[Value]) -> Result<Vec<Value>, Fault>
    ensures ok { IfOk result (λ copies. copies.items ≡ values.now) }
    ensures err { IfErr result (λ e. e ≡ Fault.Memory) }
{
    let mut copies = Vec::with_capacity(alloc, values.len())?;
    for value in values {
        copies.push(value.copy(alloc)?)?;
    }
    Ok(copies)
}

impl FieldValues {
    /// No value, which takes no memory.
    pub fn none() -> FieldValues
        ensures { result ≡ [] }
    {
        FieldValues {
            kept: Kept::Nothing,
        }
    }

    /// One value, which takes no memory besides its own.
    pub fn one(value: Value) -> FieldValues
        ensures { result ≡ value ∷ [] }
    {
        FieldValues {
            kept: Kept::One(value),
        }
    }

    /// The values of a vector, without a copy.
    pub fn from_vec(values: Vec<Value>) -> FieldValues
        ensures { result ≡ values.items }
    {
        FieldValues {
            kept: Kept::Several(values),
        }
    }

    /// Lends the values.
    pub fn as_slice(&self) -> &[Value]
        ensures { result.now ≡ self.now }
    {
        match &self.kept {
            Kept::Nothing => &[],
            Kept::One(value) => slice::from_ref(value),
            Kept::Several(values) => values.as_slice(),
        }
    }

    /// The same values; only want of memory is answered.
    pub fn copy(&self, alloc: Global) -> Result<FieldValues, Fault>
        ensures ok { IfOk result (λ copy. copy ≡ self.now) }
        ensures err { IfErr result (λ e. e ≡ Fault.Memory) }
    {
        match &self.kept {
            Kept::Nothing => Ok(FieldValues::none()),
            Kept::One(value) => Ok(FieldValues::one(value.copy(alloc)?)),
            Kept::Several(values) => Ok(FieldValues::from_vec(copy_all(alloc, values.as_slice())?)),
        }
    }
}

/// The first value of a slice.
pub(crate) fn first_of(values: &[Value]) -> Option<&Value>
    ensures { option_copied result ≡ first_value values.now }
{
    if values.is_empty() {
        return None;
    }
    Some(&values[0])
}
