//! The generator's answer.

ghost use Rattle.std.specs.Prelude.{◌≡◌, IfOk, IfErr};
ghost use Rattle.generate_run.specs.Lines.{IsGenerated};

use crate::draws::after_three;
use crate::events::make_schema;
use crate::laws::{lines_follow, seeds_are_subjects};
use crate::line::write_line;
use crate::rule::make_rule;
use crate::seed_rule::{ready_for, tree_for};
use crate::subject::Subject;
use sig_base::{Bytes, Fault, Limits};
use std::alloc::Global;

/// The line of a seed, under the standard limits and without a line feed: how many of so many events the seed's rule matches, and how many its
/// query in SQL and its query in Lucene select, each event alike. Only want of memory is answered, and some thousands of events are in
/// memory at a time.
pub fn generate(alloc: Global, seed: u32, events: u32) -> Result<Bytes, Fault>
    ensures ok { IfOk result (IsGenerated seed events) }
    ensures err { IfErr result (λ e. e ≡ Fault.Memory) }
{
    seeds_are_subjects();
    lines_follow();
    let limits = Limits::standard();
    let schema = make_schema(alloc)?;
    let rule = make_rule(alloc, seed)?;
    let tree = tree_for(alloc, &limits, seed, &rule, &schema)?;
    let ready = ready_for(alloc, seed, &rule, &schema)?;
    let mut judge = ready.judge(alloc)?;
    let subject = Subject {
        limits: &limits,
        schema: &schema,
        rule: &rule,
        tree: &tree,
    };
    let counts = subject.count_drawn(alloc, &mut judge, after_three(seed), events)?;
    write_line(alloc, seed, events, counts)
}
