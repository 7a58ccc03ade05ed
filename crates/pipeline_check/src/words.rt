//! The words of pipelines.

ghost use Rattle.std.specs.Prelude.{◌≡◌};
ghost use Rattle.pipeline_check.specs.Words as spec;

use sig_base::Text;

/// What a type of step does.
#[derive(Clone, Copy)]
pub enum StepKind {
    MapNames,
    Prefix,
    Suffix,
    MapPrefixes,
    Drop,
    Add,
    Source,
    MapTexts,
    FillHoles,
    WildHoles,
    FailRule,
    FailItem,
}

/// Whether listed names are those that are meant, or those that are left out.
#[derive(Clone, Copy)]
pub enum Listing {
    Include,
    Exclude,
}

/// The types that change names or remove items.
fn name_kind_of(word: &Text) -> Option<StepKind>
    ensures { result ≡ spec.name_kind_of word.now }
{
    if word.is("field_name_mapping") {
        return Some(StepKind::MapNames);
    }
    if word.is("field_name_prefix") {
        return Some(StepKind::Prefix);
    }
    if word.is("field_name_suffix") {
        return Some(StepKind::Suffix);
    }
    if word.is("field_name_prefix_mapping") {
        return Some(StepKind::MapPrefixes);
    }
    if word.is("drop_detection_item") {
        return Some(StepKind::Drop);
    }
    None
}

/// The other types.
fn other_kind_of(word: &Text) -> Option<StepKind>
    ensures { result ≡ spec.other_kind_of word.now }
{
    if word.is("add_condition") {
        return Some(StepKind::Add);
    }
    if word.is("change_logsource") {
        return Some(StepKind::Source);
    }
    if word.is("map_string") {
        return Some(StepKind::MapTexts);
    }
    if word.is("value_placeholders") {
        return Some(StepKind::FillHoles);
    }
    if word.is("wildcard_placeholders") {
        return Some(StepKind::WildHoles);
    }
    if word.is("rule_failure") {
        return Some(StepKind::FailRule);
    }
    if word.is("detection_item_failure") {
        return Some(StepKind::FailItem);
    }
    None
}

/// The type of this name.
pub fn kind_of(word: &Text) -> Option<StepKind>
    ensures { result ≡ spec.kind_of word.now }
{
    match name_kind_of(word) {
        Some(kind) => Some(kind),
        None => other_kind_of(word),
    }
}

/// What the names of a condition on fields of this type are.
pub(crate) fn listing_of(word: &Text) -> Option<Listing>
    ensures { result ≡ spec.listing_of word.now }
{
    if word.is("include_fields") {
        return Some(Listing::Include);
    }
    if word.is("exclude_fields") {
        return Some(Listing::Exclude);
    }
    None
}

/// What the names of placeholders at this key are.
pub fn chooser_of(key: &Text) -> Option<Listing>
    ensures { result ≡ spec.chooser_of key.now }
{
    if key.is("include") {
        return Some(Listing::Include);
    }
    if key.is("exclude") {
        return Some(Listing::Exclude);
    }
    None
}

/// Whether both are the same.
pub fn is_same(one: Listing, other: Listing) -> bool
    ensures { result ≡ spec.is_same one other }
{
    match (one, other) {
        (Listing::Include, Listing::Include) | (Listing::Exclude, Listing::Exclude) => true,
        (Listing::Include, Listing::Exclude) | (Listing::Exclude, Listing::Include) => false,
    }
}

/// Whether the key is one of a log source.
pub fn is_source_key(key: &Text) -> bool
    ensures { result ≡ spec.is_source_key key.now }
{
    key.is("category") || key.is("product") || key.is("service")
}

/// Whether the key is one of a pipeline that is known and left out.
pub fn is_left_out(key: &Text) -> bool
    ensures { result ≡ spec.is_left_out key.now }
{
    key.is("postprocessing") || key.is("finalizers") || key.is("allowed_backends")
}
