//! The report of a match, made from its queue once the match is the last one there.

ghost use Rattle.std.specs.Prelude.{◌≡◌, ◌++◌, ◌+◌, ◌<◌, ◌≤◌, [], ◌∷◌, length};
ghost use Rattle.std.specs.Vec.{vec_len, vec_capacity};
ghost use Rattle.correlation_windows.specs.Queues.{IsFor};
ghost use Rattle.correlation_windows.specs.Reports.{first_line, report_of};
ghost use Rattle.correlation_windows.specs.declared.matches.Match as declared;

use crate::bound::Bound;
use crate::matches::Match;
use crate::queue::Queue;
use crate::report::Report;
use sig_base::{Text, Texts};

/// The line of a queue's first match.
fn first_line(queue: &Queue) -> u32
    ensures { result ≡ first_line queue.now.items }
{
    match queue.front() {
        Some(found) => found.line,
        None => 0,
    }
}

/// Adds the report of a queue's last match, which has this line and whose group has these texts, if the correlation fires.
/// Takes no memory.
fn add_report(
    queue: &Queue,
    bound: &Bound,
    number: u32,
    line: u32,
    texts: Texts,
    reports: &mut Vec<Report>,
)
    requires fit { IsFor bound.now.kind (length bound.now.rules) queue.now }
    requires room { vec_len reports.old < vec_capacity reports.old }
    ensures added { (m : declared.Match) → m.line ≡ line → reports.new.items ≡ reports.old.items ++ report_of number bound.now queue.now.items (texts, m) }
    ensures few { vec_len reports.new ≤ vec_len reports.old + 1 }
    ensures room { vec_capacity reports.new ≡ vec_capacity reports.old }
{
    if !queue.fires(bound.condition.as_slice()) {
        return;
    }
    let report = Report {
        correlation: number,
        line,
        from: first_line(queue),
        count: queue.number(),
        group: texts,
    };
    reports.push_reserved(report);
}

/// A match that enters a queue, its counted text once more, and the texts of its group.
#[derive(Drop)]
pub(crate) struct NewMatch {
    pub found: Match,
    pub text: Option<Text>,
    pub texts: Texts,
}

/// Puts a match at the end of its group's queue, which then is the match's window, and adds its report if the correlation
/// fires. Takes no memory.
pub(crate) fn enter(
    queue: &mut Queue,
    bound: &Bound,
    number: u32,
    own: NewMatch,
    reports: &mut Vec<Report>,
)
    requires fit { IsFor bound.now.kind (length bound.now.rules) queue.old }
    requires places { 0 < queue.old.room }
    requires text { own.text ≡ own.found.counted }
    requires room { vec_len reports.old < vec_capacity reports.old }
    ensures items { queue.new.items ≡ queue.old.items ++ own.found ∷ [] }
    ensures fit { IsFor bound.now.kind (length bound.now.rules) queue.new }
    ensures places { queue.old.room ≤ queue.new.room + 1 }
    ensures added { reports.new.items ≡ reports.old.items ++ report_of number bound.now (queue.old.items ++ own.found ∷ []) (own.texts, own.found) }
    ensures few { vec_len reports.new ≤ vec_len reports.old + 1 }
    ensures room { vec_capacity reports.new ≡ vec_capacity reports.old }
{
    let line = own.found.line;
    queue.push_back(own.found, own.text);
    add_report(queue, bound, number, line, own.texts, reports);
}
