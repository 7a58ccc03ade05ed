//! How many matches are held.

ghost use Rattle.std.specs.Prelude.{◌≡◌, ◌-◌, ◌^◌, ◌<◌, min, length, get_or};
ghost use Rattle.correlation_windows.specs.Queues.{count_held, lengths};

use crate::group::Group;
use crate::queue::Queue;
use indexmap::IndexMap;

/// How many matches the queue at this place of the map has.
fn length_at(map: &IndexMap<Group, Queue>, place: usize) -> u64
    ensures { place < length map.now.entries → result ≡ get_or (lengths map.now.entries) place 0 }
{
    match map.get_index(place) {
        Some((_group, queue)) => queue.len() as u64,
        None => 0,
    }
}

/// How many matches all queues have, or 2^64 - 1 where they're more.
pub(crate) fn count_held(map: &IndexMap<Group, Queue>) -> u64
    ensures { result ≡ min (count_held map.now.entries) (2 ^ 64 - 1) }
{
    let mut sum: u64 = 0;
    let mut place = 0;
    while place < map.len() {
        sum = sum.saturating_add(length_at(map, place));
        place += 1;
    }
    sum
}
