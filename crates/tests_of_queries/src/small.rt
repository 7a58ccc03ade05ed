//! A language for tests: the bytes are a regular expression, and events are picked whose first field has, first of its values, a
//! text that it finds.

ghost use Rattle.std.specs.Prelude.{◌≡◌, ◌↔◌, ◌⊎◌, List, ℕ, [], ◌∷◌, map, true, ⊤, Some, chars, if◌then◌else◌};
ghost use Rattle.std.specs.Str.{is_utf8};
ghost use Rattle.event_schema.specs.Rows.{field_values, first_value};
ghost use Rattle.event_schema.specs.declared.value.Value.{Value};
ghost use Rattle.event_schema.specs.declared.value.Value.TheVariants as values;
ghost use Rattle.query_lang.specs.Patterns.{finds};
ghost use Rattle.sig_base.specs.Judged.{first, must, refusal};
ghost use Rattle.query_tokens.specs.Places.{origin};

use event_schema::{Event, Schema, Value};
use query_lang::{Asker, Builder, Finder, Language, Search, Selector};
use sig_base::{Code, Fault, Limits, Place, Text, refused};
use std::alloc::Global;
use std::str;

pub struct Small;

#[derive(Drop)]
pub struct Ready<'s> {
    finder: Finder<'s>,
}

/// Whether the first field has, first of its values, a text that is found.
fn is_found(finder: &mut Finder<'_>, event: &Event) -> bool
    ensures found { (result ≡ true) ↔ ((text : List ℕ) × (first_value (field_values event.now.values 0) ≡ Some (values.Text text)) × (finds finder.old.text.now text ≡ true)) }
    ensures same { finder.new.text.now ≡ finder.old.text.now }
{
    match event.get(0) {
        Some(Value::Text(text)) => finder.finds(text.as_str()),
        _ => false,
    }
}

impl<'s> Selector for Ready<'s> {
    ghost Plain = { List ℕ };

    ghost plain = { λ r. r.finder.text.now };

    ghost picks = { λ pattern row. (text : List ℕ) × (first_value (field_values row 0) ≡ Some (values.Text text)) × (finds pattern text ≡ true) };

    fn selects(&mut self, _schema: &Schema, event: &Event) -> bool {
        is_found(&mut self.finder, event)
    }

    fn law()
        ensures { (pattern : List ℕ) (row : List (List Value))
            → ((text : List ℕ) × (first_value (field_values row 0) ≡ Some (values.Text text)) × (finds pattern text ≡ true))
            ⊎ (((text : List ℕ) × (first_value (field_values row 0) ≡ Some (values.Text text)) × (finds pattern text ≡ true)) → ⊥) }
    {}
}

impl Language for Small {
    type Query = Search;

    ghost Plain = { List ℕ };

    ghost plain = { λ s. s.text };

    ghost is_query = { λ schema bytes pattern. (is_utf8 bytes ≡ true) × (pattern ≡ chars bytes) };

    ghost is_within = { λ limits schema bytes pattern. ⊤ };

    ghost picks = { λ pattern row. (text : List ℕ) × (first_value (field_values row 0) ≡ Some (values.Text text)) × (finds pattern text ≡ true) };

    ghost takes_memory = { λ pattern. true };

    ghost patterns = { λ bytes. if is_utf8 bytes then record { place = origin; pattern = chars bytes } ∷ [] else [] };

    ghost refuses = { λ limits schema bytes places r. first (must 1 (record { line = 1; column = 1 }) (is_utf8 bytes) ∷ map (λ p. Some (refusal p.code (record { line = 1; column = 1 }))) places) ≡ Some r };

    fn read<B: Builder>(
        alloc: Global,
        _limits: &Limits,
        _schema: &Schema,
        bytes: &[u8],
        builder: &mut B,
    ) -> Result<Search, Fault> {
        match str::from_utf8(bytes) {
            Ok(text) => {
                let text = Text::copy(alloc, text)?;
                Search::read(alloc, builder, text, Place::START)
            }
            Err(_) => Err(refused(Code::NOT_UTF8, Place::START)),
        }
    }

    fn selects(
        alloc: Global,
        query: &mut Search,
        _schema: &Schema,
        event: &Event,
    ) -> Result<bool, Fault> {
        let mut finder = query.finder(alloc)?;
        Ok(is_found(&mut finder, event))
    }

    fn with_selector<A: Asker>(
        alloc: Global,
        query: &Search,
        asker: &mut A,
    ) -> Result<A::Answer, Fault> {
        let mut ready = Ready {
            finder: query.finder(alloc)?,
        };
        Ok(asker.ask(alloc, &mut ready))
    }

    fn law() {}
}
