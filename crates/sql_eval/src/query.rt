//! What queries say of events, and which they select.

ghost use Rattle.std.specs.Prelude.{◌≡◌, IsOk, IfOk, IfErr, false};
ghost use Rattle.event_schema.specs.Rows.{first_values};
ghost use Rattle.query_lang.specs.Answers.{SelectAnswers};
ghost use Rattle.sql_lang.specs.Meaning as meaning;
ghost use Rattle.sql_lang.specs.Queries.{Picks};
ghost use Rattle.sql_lang.specs.View.{expr_view};
ghost use Rattle.sql_eval.specs.Searches.{takes_memory};
ghost use Rattle.sql_eval.specs.View.{truth_view};

use crate::asked_queries::Asking;
use crate::truth::Truth;
use event_schema::Event;
use query_lang::Asker;
use sig_base::Fault;
use sql_lang::Select;
use std::alloc::Global;

/// What a query says of one event: yes, no or unknown, by the first value of each field. Only want of memory is answered, and only by
/// a query with a regular expression.
pub fn value_of(alloc: Global, query: &Select, event: &Event) -> Result<Truth, Fault>
    ensures ok { IfOk result (λ truth. truth_view truth ≡ meaning.sql_value (expr_view query.now.condition) (first_values event.now.values)) }
    ensures err { IfErr result (λ e. e ≡ Fault.Memory) }
    ensures free { takes_memory (expr_view query.now.condition) ≡ false → IsOk result }
{
    let mut asking = Asking::of(alloc, &query.condition)?;
    Ok(asking.value(event))
}

/// Whether a query selects one event: where it says yes. Only want of memory is answered, and only by a query with a regular
/// expression.
pub fn selects(alloc: Global, query: &Select, event: &Event) -> Result<bool, Fault>
    ensures picks { SelectAnswers (Picks (expr_view query.now.condition) event.now.values) result }
    ensures free { takes_memory (expr_view query.now.condition) ≡ false → IsOk result }
{
    let value = value_of(alloc, query, event)?;
    Ok(value.is_yes())
}

/// Has a query asked of many events, with its searches made once. Only want of memory is answered, and only by a query with a regular
/// expression.
pub fn with_selector<A: Asker>(
    alloc: Global,
    query: &Select,
    asker: &mut A,
) -> Result<A::Answer, Fault>
    requires asker { A.can_ask asker.old }
    ensures asked { IfOk result (A.asked (Picks (expr_view query.now.condition)) asker.old asker.new) }
    ensures err { IfErr result (λ e. (e ≡ Fault.Memory) × (asker.new ≡ asker.old)) }
    ensures free { takes_memory (expr_view query.now.condition) ≡ false → IsOk result }
{
    let mut asking = Asking::of(alloc, &query.condition)?;
    Ok(asker.ask(alloc, &mut asking))
}
