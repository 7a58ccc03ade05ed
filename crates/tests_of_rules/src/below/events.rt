//! Events and their values, by hand.

use crate::tables::assert_told;
use event_schema::{Event, Field, FieldKind, FieldList, FieldValues, Schema, Value};
use sig_base::{Text, Texts};
use std::alloc::Global;
use std::test::Fail;

fn field(alloc: Global, name: &str, kind: FieldKind, many: bool) -> Result<Field, Fail> {
    Ok(Field {
        name: Text::copy(alloc, name)?,
        kind,
        at: Texts::new(alloc),
        search: false,
        cased: false,
        many,
    })
}

fn schema(alloc: Global) -> Result<Schema, Fail> {
    let mut fields = FieldList::new(alloc);
    fields.push(field(alloc, "Image", FieldKind::Text, false)?)?;
    fields.push(field(alloc, "Size", FieldKind::Whole, true)?)?;
    fields.push(field(alloc, "User", FieldKind::Text, true)?)?;
    Ok(Schema {
        table: Text::copy(alloc, "events")?,
        fields,
        time: None,
    })
}

/// One text, three numbers, and no value.
fn event(alloc: Global) -> Result<Event, Fail> {
    let mut sizes = Vec::new(alloc);
    sizes.push(Value::Whole(-40))?;
    sizes.push(Value::Whole(7))?;
    sizes.push(Value::Whole(0))?;
    let mut values = Vec::new(alloc);
    values.push(FieldValues::one(Value::Text(Text::copy(alloc, "a.exe")?)))?;
    values.push(FieldValues::from_vec(sizes))?;
    values.push(FieldValues::none())?;
    Ok(Event::new(values, Some(-5)))
}

fn shown(alloc: Global, value: Option<&Value>) -> Result<Text, Fail> {
    match value {
        Some(value) => Ok(value.text(alloc)?),
        None => Ok(Text::copy(alloc, "none")?),
    }
}

/// The values' texts, with a blank behind each.
fn listed(alloc: Global, values: &[Value]) -> Result<Text, Fail> {
    let mut all = Text::new(alloc);
    for value in values {
        all.push_str(value.text(alloc)?.as_str())?;
        all.push(' ')?;
    }
    Ok(all)
}

/// What is found of a field by its name: its number, its first value, and its values by its number and by its name.
fn found(alloc: Global, schema: &Schema, event: &Event, name: &str) -> Result<String, Fail> {
    let by_name = listed(alloc, event.values_at(schema, name))?;
    let Some(number) = schema.find(name) else {
        return Ok(format!(in alloc; "none, {}", by_name.as_str())?);
    };
    let first = shown(alloc, event.get(number))?;
    let values = listed(alloc, event.values(number))?;
    Ok(format!(in alloc;
        "{number}, {}, {}, {}",
        first.as_str(),
        values.as_str(),
        by_name.as_str()
    )?)
}

/// What is found of three fields and of a name that is none, a line each.
fn all_found(alloc: Global, schema: &Schema, event: &Event) -> Result<String, Fail> {
    let mut all = String::new(alloc);
    for name in ["Image", "Size", "User", "image"] {
        all.push_str(found(alloc, schema, event, name)?.as_str())?;
        all.push('\n')?;
    }
    Ok(all)
}

/// That, and the value of a number that no field has, of a copy of an event.
fn values_told(alloc: Global) -> Result<String, Fail> {
    let event = event(alloc)?.copy(alloc)?;
    let mut all = all_found(alloc, &schema(alloc)?, &event)?;
    all.push_str(shown(alloc, event.get(3))?.as_str())?;
    Ok(all)
}

#[test]
fn values_by_names_and_numbers(rt: HostRuntime) -> Result<(), Fail> {
    let alloc = rt.alloc();
    assert_told(
        &rt,
        values_told(alloc),
        "0, a.exe, a.exe , a.exe \n1, -40, -40 7 0 , -40 7 0 \n2, none, , \nnone, \nnone",
    )?;
    assert_eq!(rt; event(alloc)?.copy(alloc)?.moment(), Some(-5));
    Ok(())
}
