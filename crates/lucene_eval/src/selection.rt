//! Which events a query selects.

ghost use Rattle.std.specs.Prelude.{◌≡◌, ◌==◌, ◌&&◌, not};
ghost use Rattle.std.specs.List.{list_any, list_all};
ghost use Rattle.lucene_lang.specs.Meaning.{selects as selects_of, atom_holds as atom_holds_of};
ghost use Rattle.lucene_lang.specs.View.{group_view, atom_view, parts_view};
ghost use Rattle.lucene_eval.specs.Joined.{agrees, is_hit, is_asked};

use crate::values::field_holds;
use event_schema::Event;
use lucene_lang::{Atom, Clause, Group, Word};

/// Whether each clause without NOT holds, and none with NOT.
#[cycle(evaluation)]
fn all_agree(clauses: &[Clause], event: &Event) -> bool
    ensures { result ≡ list_all (agrees event.now.values) (parts_view clauses.now) }
{
    for clause in clauses {
        if atom_holds(&clause.atom, event) == clause.negated {
            return false;
        }
    }
    true
}

/// Whether some clause holds among those with NOT, or among those without.
#[cycle(evaluation)]
fn one_hits(clauses: &[Clause], negated: bool, event: &Event) -> bool
    ensures { result ≡ list_any (is_hit event.now.values negated) (parts_view clauses.now) }
{
    for clause in clauses {
        if clause.negated == negated && atom_holds(&clause.atom, event) {
            return true;
        }
    }
    false
}

#[tactic(auto, using(crate::proofs::Turns::asked_more, crate::proofs::Turns::asked_here, crate::proofs::Turns::asked_end))]
fn some_asked(clauses: &[Clause]) -> bool
    ensures { result ≡ list_any is_asked (parts_view clauses.now) }
{
    for clause in clauses {
        if !clause.negated {
            return true;
        }
    }
    false
}

#[cycle(evaluation)]
fn atom_holds(atom: &Atom, event: &Event) -> bool
    ensures { result ≡ atom_holds_of event.now.values (atom_view atom.now) }
{
    match atom {
        Atom::Everything => true,
        Atom::Group(group) => selects(group, event),
        Atom::Field {
            field,
            cased,
            value,
        } => field_holds(*cased, value, event.values(*field as usize)),
    }
}

/// Whether a query selects an event of the schema that it was read under; it takes no memory, and goes as deep as parentheses nest.
#[cycle(evaluation)]
pub fn selects(group: &Group, event: &Event) -> bool
    ensures { result ≡ selects_of event.now.values (group_view group.now) }
{
    let clauses = group.clauses.as_slice();
    match group.word {
        Word::And => some_asked(clauses) && all_agree(clauses, event),
        Word::Or => !one_hits(clauses, true, event) && one_hits(clauses, false, event),
    }
}
