//! Laws of what is kept of a history.

ghost use Rattle.correlation_windows.specs.Laws.{Suffices, Goes};
ghost use Rattle.correlation_windows.specs.Ready.{Follows};

/// The reports of an event follow from what is kept.
pub fn kept_suffices()
    ensures { Suffices }
{}

/// What is kept follows from what was kept and the next event's matches.
pub fn kept_goes()
    ensures { Goes }
{}

/// Matches of one event can go into queues without a later match.
pub fn matches_follow()
    ensures { Follows }
{}
