//! Matches on their way into queues.

ghost use Rattle.std.specs.Prelude.{◌≡◌, IfOk, IfErr};
ghost use Rattle.correlation_windows.specs.Ready.{IsFresh};

use crate::bound::CorrelationKind;
use crate::group::Group;
use crate::matches::Match;
use crate::queue::Queue;
use sig_base::{Fault, Text, Texts, TryCopy};
use std::alloc::Global;

/// An empty queue for a group that has none, and the group's texts once more for a report.
#[derive(Drop)]
pub struct Fresh {
    pub queue: Queue,
    pub texts: Texts,
}

/// A match with its group, its counted text once more, and a queue if the group may have none.
#[derive(Drop)]
pub struct Found {
    pub group: Group,
    pub found: Match,
    pub text: Option<Text>,
    pub fresh: Option<Fresh>,
}

impl Fresh {
    /// An empty queue for a group, with room for so many matches; only want of memory is answered.
    pub(crate) fn new(
        alloc: Global,
        kind: CorrelationKind,
        rules: usize,
        group: &Group,
        count: usize,
    ) -> Result<Fresh, Fault>
        ensures ok { IfOk result (IsFresh count kind rules group.now) }
        ensures err { IfErr result (λ e. e ≡ Fault.Memory) }
    {
        let queue = Queue::new(alloc, kind, rules, count)?;
        let texts = group.texts(alloc)?;
        Ok(Fresh { queue, texts })
    }
}

/// A counted text once more.
pub(crate) fn text_again(alloc: Global, text: &Option<Text>) -> Result<Option<Text>, Fault>
    ensures ok { IfOk result (λ copy. copy ≡ text.now) }
    ensures err { IfErr result (λ e. e ≡ Fault.Memory) }
{
    match text {
        Some(text) => Ok(Some(text.try_copy(alloc)?)),
        None => Ok(None),
    }
}
