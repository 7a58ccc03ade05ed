//! The schema that is made of a rule where none is given.

ghost use Rattle.std.specs.Prelude.{◌≡◌, map, IfOk, IfErr};
ghost use Rattle.event_schema.specs.Schemas.{IsSchema};
ghost use Rattle.sig_base.specs.Judged.{Judged};
ghost use Rattle.rule_model.specs.Plain.{rule_view};
ghost use Rattle.rule_model.specs.Whole.{IsWhole};
ghost use Rattle.rule_schema.specs.Gathered.{field_of};
ghost use Rattle.rule_schema.specs.Inferred as spec;

use crate::laws::inferred_schemas;
use crate::names::{Named, gather};
use event_schema::{Field, FieldList, Schema};
use rule_model::Rule;
use sig_base::{Fault, Text, Texts};
use std::alloc::Global;

/// A field of one value, found under its own name, of the kind that is asked for.
fn made_field(alloc: Global, named: Named) -> Result<Field, Fault>
    ensures ok { IfOk result (λ field. field ≡ field_of named) }
    ensures err { IfErr result (λ e. e ≡ Fault.Memory) }
{
    let kind = named.asked.kind();
    let mut at = Texts::new(alloc);
    at.push(Text::copy(alloc, named.name.as_str())?)?;
    Ok(Field {
        name: named.name,
        kind,
        at,
        search: false,
        cased: false,
        many: false,
    })
}

fn made_fields(alloc: Global, names: Vec<Named>) -> Result<FieldList, Fault>
    ensures ok { IfOk result (λ fields. fields ≡ map field_of names.items) }
    ensures err { IfErr result (λ e. e ≡ Fault.Memory) }
{
    let mut fields = FieldList::new(alloc);
    for named in names {
        fields.push(made_field(alloc, named)?)?;
    }
    Ok(fields)
}

/// The schema that is made of a rule where none is given: the table `events`, with a field for each name that the rule
/// uses, in the order of their first appearance, of whole numbers or of addresses where a test asks for them, else of texts. Two
/// names that differ in the case of A to Z alone are refused 80 at the item of the later one, and so is a name that is asked to be
/// of both kinds. More than 2^32 - 1 names can't be numbered, which is want of memory.
pub fn infer_schema(alloc: Global, rule: &Rule) -> Result<Schema, Fault>
    ensures made { Judged (λ schema. schema ≡ spec.inferred_schema (rule_view rule.now)) (spec.schema_refusal (rule_view rule.now)) result }
    ensures kept { IsWhole (rule_view rule.now) → IfOk result (λ schema. IsSchema schema) }
{
    inferred_schemas();
    let names = gather(alloc, rule.detections.as_slice())?;
    if names.len() > u32::MAX as usize {
        return Err(Fault::Memory);
    }
    let fields = made_fields(alloc, names)?;
    let table = Text::copy(alloc, "events")?;
    Ok(Schema {
        table,
        fields,
        time: None,
    })
}
