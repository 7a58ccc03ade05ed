//! Queries that are asked of events.

ghost use Rattle.std.specs.Prelude.{◌≡◌};
ghost use Rattle.sql_lang.specs.View.{expr_view};
ghost use Rattle.sql_eval.specs.Searches.{patterns_in};

use crate::finders::Finders;
use crate::searches::gather;
use crate::truth::Truth;
use crate::value::expr_value;
use event_schema::{Event, Schema};
use query_lang::Selector;
use sig_base::Fault;
use sql_lang::Expr;
use std::alloc::Global;

/// An expression that has all memory that it takes to be asked of an event: its searches, in their order.
#[derive(Drop)]
pub struct Asking<'q> {
    pub condition: &'q Expr,
    finders: Finders<'q>,
    ghost whole: { finders.texts ≡ patterns_in (expr_view condition.now) },
}

impl<'q> Asking<'q> {
    ghost use Rattle.std.specs.Prelude.{IsOk, IfOk, IfErr, false};
    ghost use Rattle.event_schema.specs.Rows.{first_values};
    ghost use Rattle.sql_lang.specs.Meaning as meaning;
    ghost use Rattle.sql_eval.specs.Searches.{takes_memory};
    ghost use Rattle.sql_eval.specs.View.{truth_view};

    /// Makes the searches; only want of memory is answered, and only where there is a regular expression.
    pub fn of(alloc: Global, condition: &'q Expr) -> Result<Asking<'q>, Fault>
        ensures ok { IfOk result (λ asking. expr_view asking.condition.now ≡ expr_view condition.now) }
        ensures err { IfErr result (λ e. e ≡ Fault.Memory) }
        ensures free { takes_memory (expr_view condition.now) ≡ false → IsOk result }
    {
        let mut finders = Finders::new(alloc);
        gather(alloc, condition, &mut finders)?;
        Ok(Asking { condition, finders })
    }

    /// The expression's value for an event.
    pub fn value(&mut self, event: &Event) -> Truth
        ensures value { truth_view result ≡ meaning.sql_value (expr_view self.old.condition.now) (first_values event.now.values) }
        ensures same { expr_view self.new.condition.now ≡ expr_view self.old.condition.now }
    {
        self.finders.rewind();
        expr_value(self.condition, event, &mut self.finders)
    }
}

impl<'q> Selector for Asking<'q> {
    ghost use Rattle.std.specs.Prelude.{◌⊎◌, List};
    ghost use Rattle.event_schema.specs.declared.value.Value.{Value};
    ghost use Rattle.sql_lang.specs.Expression as plain;
    ghost use Rattle.sql_lang.specs.Queries.{Picks};

    ghost Plain = { plain.Expr };

    ghost plain = { λ a. expr_view a.condition.now };

    ghost picks = { Picks };

    fn selects(&mut self, _schema: &Schema, event: &Event) -> bool {
        self.value(event).is_yes()
    }

    fn law()
        ensures { (query : plain.Expr) (row : List (List Value)) → Picks query row ⊎ (Picks query row → ⊥) }
    {}
}
