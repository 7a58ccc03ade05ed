//! Binding correlations to rules and to the fields of a schema.

ghost use Rattle.std.specs.Prelude.{◌≡◌, ◌<◌, ◌^◌, ◌&&◌, length, map, find, codes, IfOk, IfErr, IfSome, option_map};
ghost use Rattle.std.specs.List.{AllZip, list_any, list_all};
ghost use Rattle.sig_base.specs.Judged.{Judged, must};
ghost use Rattle.event_schema.specs.Lists.{EachOf};
ghost use Rattle.schema_index.specs.Numbered.{AreNumbered};
ghost use Rattle.schema_index.specs.Numbers.{number_of};
ghost use Rattle.correlation_read.specs.Binding as spec;
ghost use Rattle.correlation_read.specs.Correlations.{correlation_view};
ghost use Rattle.correlation_read.specs.Indexed.{IsRuleIndex};
ghost use Rattle.correlation_read.specs.Sources as sources;

use crate::correlation::{Alias, AliasField, Correlation};
use crate::index::RuleIndex;
use correlation_windows::{Bound, Op};
use event_schema::{Field, Schema};
use rule_head::Head;
use schema_index::FieldNumbers;
use sig_base::{Code, Fault, Place, Sequence, Text, Texts, TryCopy, must, refused};
use std::alloc::Global;
use text_index::TextIndex;

/// Where the field of a name that is grouped by comes from: the alias or the field of this number.
#[derive(Clone, Copy)]
enum Source {
    Alias(u32),
    Field(u32),
}

/// The rules that texts stand for; one that stands for none is refused at the place.
fn find_rules(
    alloc: Global,
    index: &RuleIndex,
    heads: &[Head],
    texts: &[Text],
    place: Place,
) -> Result<Sequence<u32>, Fault>
    requires { IsRuleIndex heads.now index.now }
    ensures { Judged (λ numbers. AllZip (spec.IsNumbered (map spec.names_of_head heads.now)) texts.now numbers) (must 141 place (list_all (spec.is_there (map spec.names_of_head heads.now)) texts.now)) result }
{
    let mut numbers = Sequence::with_capacity(alloc, texts.len())?;
    for text in texts {
        let Some(number) = index.find(heads, text) else {
            return Err(refused(Code::UNKNOWN_RULE, place));
        };
        numbers.push(number)?;
    }
    Ok(numbers)
}

fn has_rule(entries: &[AliasField], rule: &Text) -> bool
    ensures { result ≡ list_any (spec.is_rule rule.now) entries.now }
{
    entries.iter().any(|entry| entry.rule.equals(rule))
}

fn has_rules(entries: &[AliasField], rules: &[Text]) -> bool
    ensures { result ≡ list_all (λ rule. list_any (spec.is_rule rule) entries.now) rules.now }
{
    rules.iter().all(|rule| has_rule(entries, rule))
}

fn is_field(numbers: &FieldNumbers, fields: &[Field], name: &Text) -> bool
    requires { AreNumbered fields.now numbers.now }
    ensures { result ≡ spec.is_field fields.now name.now }
{
    numbers.look_up(fields, name).is_some()
}

fn has_fields(numbers: &FieldNumbers, fields: &[Field], entries: &[AliasField]) -> bool
    requires { AreNumbered fields.now numbers.now }
    ensures { result ≡ list_all (λ f. spec.is_field fields.now f.field) entries.now }
{
    for entry in entries {
        if !is_field(numbers, fields, &entry.field) {
            return false;
        }
    }
    true
}

/// Whether an alias gives a field for each of the rules, and names fields of the schema alone.
fn fits(numbers: &FieldNumbers, fields: &[Field], rules: &[Text], alias: &Alias) -> bool
    requires { AreNumbered fields.now numbers.now }
    ensures { result ≡ spec.fits fields.now rules.now alias.now }
{
    let entries = alias.fields.as_slice();
    has_rules(entries, rules) && has_fields(numbers, fields, entries)
}

#[tactic(auto, using(crate::proofs::Positions::any_place))]
fn is_among(texts: &TextIndex, text: &Text) -> bool
    ensures { result ≡ spec.is_among texts.now text.now }
{
    texts.find(text).is_some()
}

/// Whether an alias isn't grouped by, or fits.
fn is_bindable(
    numbers: &FieldNumbers,
    fields: &[Field],
    rules: &[Text],
    group_by: &TextIndex,
    alias: &Alias,
) -> bool
    requires { AreNumbered fields.now numbers.now }
    ensures { result ≡ spec.is_bindable fields.now rules.now group_by.now alias.now }
{
    !is_among(group_by, &alias.name) || fits(numbers, fields, rules, alias)
}

fn are_bindable(
    numbers: &FieldNumbers,
    fields: &[Field],
    rules: &[Text],
    group_by: &TextIndex,
    aliases: &[Alias],
) -> bool
    requires { AreNumbered fields.now numbers.now }
    ensures { result ≡ list_all (spec.is_bindable fields.now rules.now group_by.now) aliases.now }
{
    for alias in aliases {
        if !is_bindable(numbers, fields, rules, group_by, alias) {
            return false;
        }
    }
    true
}

/// Whether a name is an alias or a field.
fn is_known(numbers: &FieldNumbers, fields: &[Field], aliases: &TextIndex, name: &Text) -> bool
    requires { AreNumbered fields.now numbers.now }
    ensures { result ≡ spec.is_known fields.now aliases.now name.now }
{
    is_among(aliases, name) || is_field(numbers, fields, name)
}

fn are_known(numbers: &FieldNumbers, fields: &[Field], aliases: &TextIndex, names: &[Text]) -> bool
    requires { AreNumbered fields.now numbers.now }
    ensures { result ≡ list_all (spec.is_known fields.now aliases.now) names.now }
{
    for name in names {
        if !is_known(numbers, fields, aliases, name) {
            return false;
        }
    }
    true
}

fn is_counted(numbers: &FieldNumbers, fields: &[Field], counted: &Option<Text>) -> bool
    requires { AreNumbered fields.now numbers.now }
    ensures { result ≡ spec.is_counted fields.now counted.now }
{
    match counted {
        Some(name) => is_field(numbers, fields, name),
        None => true,
    }
}

fn counted_number(numbers: &FieldNumbers, fields: &[Field], counted: &Option<Text>) -> Option<u32>
    requires { AreNumbered fields.now numbers.now }
    ensures { result ≡ option_map (number_of fields.now) counted.now }
{
    match counted {
        Some(name) => Some(numbers.find(fields, name)),
        None => None,
    }
}

fn copy_names(alloc: Global, aliases: &[Alias]) -> Result<Texts, Fault>
    ensures ok { IfOk result (λ names. names ≡ spec.names_of aliases.now) }
    ensures err { IfErr result (λ e. e ≡ Fault.Memory) }
{
    let mut names = Texts::with_capacity(alloc, aliases.len())?;
    for alias in aliases {
        names.push(Text::copy(alloc, alias.name.as_str())?)?;
    }
    Ok(names)
}

/// The field of the first entry for a rule, or else the name.
fn given_field<'a>(name: &'a Text, entries: &'a [AliasField], rule: &Text) -> &'a Text
    ensures { result.now ≡ spec.given_field name.now (find (spec.is_rule rule.now) entries.now) }
{
    for entry in entries {
        if entry.rule.equals(rule) {
            return &entry.field;
        }
    }
    name
}

/// The field that an alias gives for a rule.
fn alias_field<'a>(alias: &'a Alias, rule: &Text) -> &'a Text
    ensures { result.now ≡ spec.alias_field rule.now alias.now }
{
    given_field(&alias.name, alias.fields.as_slice(), rule)
}

/// The field of each alias for a rule.
fn numbers_for(
    alloc: Global,
    numbers: &FieldNumbers,
    fields: &[Field],
    aliases: &[Alias],
    rule: &Text,
) -> Result<Vec<u32>, Fault>
    requires { AreNumbered fields.now numbers.now }
    ensures ok { IfOk result (λ all. all.items ≡ sources.numbers_for fields.now aliases.now rule.now) }
    ensures err { IfErr result (λ e. e ≡ Fault.Memory) }
{
    let mut all = Vec::with_capacity(alloc, aliases.len())?;
    for alias in aliases {
        all.push(numbers.find(fields, alias_field(alias, rule)))?;
    }
    Ok(all)
}

fn source_of(numbers: &FieldNumbers, fields: &[Field], aliases: &TextIndex, name: &Text) -> Source
    requires { AreNumbered fields.now numbers.now }
    ensures { result ≡ sources.source_of fields.now aliases.now name.now }
{
    match aliases.find(name) {
        Some(alias) => Source::Alias(alias),
        None => Source::Field(numbers.find(fields, name)),
    }
}

fn find_sources(
    alloc: Global,
    numbers: &FieldNumbers,
    fields: &[Field],
    aliases: &TextIndex,
    names: &[Text],
) -> Result<Vec<Source>, Fault>
    requires { AreNumbered fields.now numbers.now }
    ensures ok { IfOk result (λ all. all.items ≡ map (sources.source_of fields.now aliases.now) names.now) }
    ensures err { IfErr result (λ e. e ≡ Fault.Memory) }
{
    let mut all = Vec::with_capacity(alloc, names.len())?;
    for name in names {
        all.push(source_of(numbers, fields, aliases, name))?;
    }
    Ok(all)
}

fn number_at(numbers: &[u32], source: Source) -> u32
    ensures { result ≡ sources.number_at numbers.now source }
{
    match source {
        Source::Field(field) => field,
        Source::Alias(alias) => match numbers.get(alias as usize) {
            Some(number) => *number,
            None => 0,
        },
    }
}

fn group_from(alloc: Global, all: &[Source], numbers: &[u32]) -> Result<Sequence<u32>, Fault>
    ensures ok { IfOk result (λ group. group ≡ sources.group_from all.now numbers.now) }
    ensures err { IfErr result (λ e. e ≡ Fault.Memory) }
{
    let mut group = Sequence::with_capacity(alloc, all.len())?;
    for source in all {
        group.push(number_at(numbers, *source))?;
    }
    Ok(group)
}

/// The fields of the group of each rule.
fn groups_from(
    alloc: Global,
    numbers: &FieldNumbers,
    fields: &[Field],
    aliases: &[Alias],
    all: &[Source],
    rules: &[Text],
) -> Result<Sequence<Sequence<u32>>, Fault>
    requires { AreNumbered fields.now numbers.now }
    ensures ok { IfOk result (λ groups. groups ≡ map (λ rule. sources.group_from all.now (sources.numbers_for fields.now aliases.now rule)) rules.now) }
    ensures err { IfErr result (λ e. e ≡ Fault.Memory) }
{
    let mut groups = Sequence::with_capacity(alloc, rules.len())?;
    for rule in rules {
        let of_aliases = numbers_for(alloc, numbers, fields, aliases, rule)?;
        let group = group_from(alloc, all, &of_aliases)?;
        groups.push(group)?;
    }
    Ok(groups)
}

fn copy_condition(alloc: Global, condition: &[(Op, u64)]) -> Result<Sequence<(Op, u64)>, Fault>
    ensures ok { IfOk result (λ tests. tests ≡ condition.now) }
    ensures err { IfErr result (λ e. e ≡ Fault.Memory) }
{
    let mut tests = Sequence::with_capacity(alloc, condition.len())?;
    for test in condition {
        tests.push(*test)?;
    }
    Ok(tests)
}

impl Correlation {
    fn check_groups(
        &self,
        numbers: &FieldNumbers,
        fields: &[Field],
        group_by: &TextIndex,
        aliases: &TextIndex,
    ) -> Result<(), Fault>
        requires numbered { AreNumbered fields.now numbers.now }
        requires group_by { group_by.now ≡ self.now.group_by }
        requires aliases { aliases.now ≡ spec.names_of self.now.aliases }
        ensures { Judged (λ done. Unit {0}) (spec.groups_refusal fields.now (correlation_view self.now)) result }
    {
        let rules = self.rules.as_slice();
        let bindable = are_bindable(numbers, fields, rules, group_by, self.aliases.as_slice());
        must(Code::BAD_ALIAS, self.place, bindable)?;
        let known = are_known(numbers, fields, aliases, self.group_by.as_slice())
            && is_counted(numbers, fields, &self.counted);
        must(Code::UNKNOWN_GROUP_FIELD, self.place, known)
    }

    /// The names that it groups by, each found by its number.
    fn index_names(&self, alloc: Global) -> Result<TextIndex, Fault>
        ensures ok { IfOk result (λ index. index ≡ self.now.group_by) }
        ensures err { IfErr result (λ e. e ≡ Fault.Memory) }
    {
        TextIndex::number(alloc, self.group_by.try_copy(alloc)?)
    }

    /// The names of its aliases, each found by its number.
    fn index_aliases(&self, alloc: Global) -> Result<TextIndex, Fault>
        ensures ok { IfOk result (λ index. index ≡ spec.names_of self.now.aliases) }
        ensures err { IfErr result (λ e. e ≡ Fault.Memory) }
    {
        TextIndex::number(alloc, copy_names(alloc, self.aliases.as_slice())?)
    }

    /// The fields of the group of each rule, where its names are there.
    fn make_groups(
        &self,
        alloc: Global,
        numbers: &FieldNumbers,
        fields: &[Field],
        names: &TextIndex,
    ) -> Result<Sequence<Sequence<u32>>, Fault>
        requires numbered { AreNumbered fields.now numbers.now }
        requires names { names.now ≡ spec.names_of self.now.aliases }
        ensures ok { IfOk result (λ groups. groups ≡ spec.groups_of fields.now (correlation_view self.now)) }
        ensures err { IfErr result (λ e. e ≡ Fault.Memory) }
    {
        let all = find_sources(alloc, numbers, fields, names, self.group_by.as_slice())?;
        let aliases = self.aliases.as_slice();
        groups_from(alloc, numbers, fields, aliases, &all, self.rules.as_slice())
    }

    /// The fields of the group of each rule.
    fn find_groups(
        &self,
        alloc: Global,
        numbers: &FieldNumbers,
        fields: &[Field],
    ) -> Result<Sequence<Sequence<u32>>, Fault>
        requires { AreNumbered fields.now numbers.now }
        ensures { Judged (λ groups. groups ≡ spec.groups_of fields.now (correlation_view self.now)) (spec.groups_refusal fields.now (correlation_view self.now)) result }
    {
        let group_by = self.index_names(alloc)?;
        let names = self.index_aliases(alloc)?;
        self.check_groups(numbers, fields, &group_by, &names)?;
        let groups = self.make_groups(alloc, numbers, fields, &names)?;
        Ok(groups)
    }

    /// Binds the correlation as `bind` does, by an index of the rules of these heads and by the numbers of the schema's fields, which
    /// many correlations share.
    pub fn bind_by(
        &self,
        alloc: Global,
        index: &RuleIndex,
        heads: &[Head],
        numbers: &FieldNumbers,
        schema: &Schema,
    ) -> Result<Bound, Fault>
        requires index { IsRuleIndex heads.now index.now }
        requires numbers { AreNumbered schema.now.fields numbers.now }
        ensures bound { Judged (spec.IsBound (map spec.names_of_head heads.now) schema.now.fields (correlation_view self.now)) (spec.bind_refusal (map spec.names_of_head heads.now) schema.now.fields (correlation_view self.now)) result }
        ensures within { IfOk result (λ b. spec.IsWithin (length heads.now) (length schema.now.fields) b) }
    {
        let fields = schema.fields.as_slice();
        let rules = find_rules(alloc, index, heads, self.rules.as_slice(), self.place)?;
        let groups = self.find_groups(alloc, numbers, fields)?;
        let condition = copy_condition(alloc, self.condition.as_slice())?;
        Ok(Bound {
            kind: self.kind,
            rules,
            groups,
            span: self.span,
            condition,
            counted: counted_number(numbers, fields, &self.counted),
        })
    }

    /// Binds the correlation to the rules of these heads, in the order of their files, and to a schema. It's refused 141 where
    /// a text of `rules` is no rule's name or identifier, 143 where an alias that it groups by lacks one of the rules or
    /// names no field, and 144 where it groups by what is neither alias nor field, or counts what is no field.
    pub fn bind(&self, alloc: Global, heads: &[Head], schema: &Schema) -> Result<Bound, Fault>
        requires { length heads.now < 2 ^ 32 }
        ensures bound { Judged (spec.IsBound (map spec.names_of_head heads.now) schema.now.fields (correlation_view self.now)) (spec.bind_refusal (map spec.names_of_head heads.now) schema.now.fields (correlation_view self.now)) result }
        ensures within { IfOk result (λ b. spec.IsWithin (length heads.now) (length schema.now.fields) b) }
    {
        let index = RuleIndex::of(alloc, heads)?;
        let numbers = FieldNumbers::of(alloc, schema.fields.as_slice())?;
        self.bind_by(alloc, &index, heads, &numbers, schema)
    }
}
