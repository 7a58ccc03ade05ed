//! The numbers of a schema's fields.

ghost use Rattle.std.specs.Prelude.{◌≡◌, ◌<◌, ◌^◌, length, IfOk, IfErr, IfSome};
ghost use Rattle.event_schema.specs.Rows.{field_number};
ghost use Rattle.event_schema.specs.Schemas.{names_of};
ghost use Rattle.schema_index.specs.Numbered.{AreIndexed, AreNumbered};
ghost use Rattle.schema_index.specs.Numbers.{number_of, searched};

use event_schema::Field;
use sig_base::{Fault, Text, Texts};
use std::alloc::Global;
use text_index::TextIndex;

/// So few names are compared one by one, and more are found by an index.
const FEW: usize = 32;

/// The number of each field by its name, and the numbers of those that keywords search, in the schema's order.
#[derive(Drop)]
pub struct FieldNumbers {
    index: Option<TextIndex>,
    searched: Vec<u32>,
}

fn copy_names(alloc: Global, fields: &[Field]) -> Result<Texts, Fault>
    ensures ok { IfOk result (λ names. names ≡ names_of fields.now) }
    ensures err { IfErr result (λ e. e ≡ Fault.Memory) }
{
    let mut names = Texts::with_capacity(alloc, fields.len())?;
    for field in fields {
        names.push(Text::copy(alloc, field.name.as_str())?)?;
    }
    Ok(names)
}

/// The names of the fields, each found by its number, where they are more than a few.
fn index_names(alloc: Global, fields: &[Field]) -> Result<Option<TextIndex>, Fault>
    ensures ok { IfOk result (λ index. AreIndexed fields.now index) }
    ensures err { IfErr result (λ e. e ≡ Fault.Memory) }
{
    if fields.len() <= FEW {
        return Ok(None);
    }
    let index = TextIndex::number(alloc, copy_names(alloc, fields)?)?;
    Ok(Some(index))
}

/// Where the field of this name stands, which is compared with each.
fn position_among(fields: &[Field], name: &Text) -> Option<usize>
    ensures first { result ≡ field_number fields.now name.now }
    ensures within { IfSome result (λ i. i < length fields.now) }
{
    fields.iter().position(|field| field.name.equals(name))
}

/// The number of the field of this name, which is compared with each.
fn find_among(fields: &[Field], name: &Text) -> Option<u32>
    requires { length fields.now < 2 ^ 32 }
    ensures { result ≡ field_number fields.now name.now }
{
    match position_among(fields, name) {
        Some(number) => Some(number as u32),
        None => None,
    }
}

/// The number of the field of this name among those that are indexed.
fn find_indexed(index: &TextIndex, fields: &[Field], name: &Text) -> Option<u32>
    requires { index.now ≡ names_of fields.now }
    ensures { result ≡ field_number fields.now name.now }
{
    index.find(name)
}

/// The number of the field of this name; of a name that two fields have the first.
fn find_field(index: &Option<TextIndex>, fields: &[Field], name: &Text) -> Option<u32>
    requires few { length fields.now < 2 ^ 32 }
    requires indexed { AreIndexed fields.now index.now }
    ensures { result ≡ field_number fields.now name.now }
{
    match index {
        Some(index) => find_indexed(index, fields, name),
        None => find_among(fields, name),
    }
}

/// The number of the field of this name, or the number behind the last field's.
fn number_in(index: &Option<TextIndex>, fields: &[Field], name: &Text) -> u32
    requires few { length fields.now < 2 ^ 32 }
    requires indexed { AreIndexed fields.now index.now }
    ensures { result ≡ number_of fields.now name.now }
{
    match find_field(index, fields, name) {
        Some(number) => number,
        None => fields.len() as u32,
    }
}

/// The numbers of the fields that keywords search.
fn search_fields(
    alloc: Global,
    index: &Option<TextIndex>,
    fields: &[Field],
) -> Result<Vec<u32>, Fault>
    requires few { length fields.now < 2 ^ 32 }
    requires indexed { AreIndexed fields.now index.now }
    ensures ok { IfOk result (λ numbers. numbers.items ≡ searched fields.now) }
    ensures err { IfErr result (λ e. e ≡ Fault.Memory) }
{
    let mut numbers = Vec::new(alloc);
    for field in fields {
        if field.search {
            numbers.push(number_in(index, fields, &field.name))?;
        }
    }
    Ok(numbers)
}

impl FieldNumbers {
    /// The numbers of these fields. More than 2^32 - 1 can't be numbered, which is want of memory.
    pub fn of(alloc: Global, fields: &[Field]) -> Result<FieldNumbers, Fault>
        ensures ok { IfOk result (λ numbers. AreNumbered fields.now numbers) }
        ensures err { IfErr result (λ e. e ≡ Fault.Memory) }
    {
        if fields.len() > u32::MAX as usize {
            return Err(Fault::Memory);
        }
        let index = index_names(alloc, fields)?;
        let searched = search_fields(alloc, &index, fields)?;
        Ok(FieldNumbers { index, searched })
    }

    /// The number of the field of this name, if there is one; of a name that two fields have the first.
    pub fn look_up(&self, fields: &[Field], name: &Text) -> Option<u32>
        requires { AreNumbered fields.now self.now }
        ensures { result ≡ field_number fields.now name.now }
    {
        find_field(&self.index, fields, name)
    }

    /// The number of the field of this name, or the number behind the last field's.
    pub fn find(&self, fields: &[Field], name: &Text) -> u32
        requires { AreNumbered fields.now self.now }
        ensures { result ≡ number_of fields.now name.now }
    {
        number_in(&self.index, fields, name)
    }

    /// The numbers of the fields that keywords search.
    pub fn searched(&self) -> &[u32]
        ensures { result.now ≡ self.now.searched.items }
    {
        self.searched.as_slice()
    }
}
