//! What is decided by the events of a volume.

ghost use Rattle.volume_decided.specs.Decided.{StepsAreDecided};
ghost use Rattle.volume_decided.specs.OpenLogs.{NothingSettles};
ghost use Rattle.volume_decided.specs.Stretch.{CallsAreDecided, FrontsAreDecided, StretchesAreDecided};

/// From one state of a volume an event of our own has one reply, with all its lists and bytes, and leads to one state, where
/// neither reply is a failure and the event has no request handled whose answer nobody hears.
pub fn steps_are_decided()
    ensures { StepsAreDecided }
{}

/// From one plain state, stretches of the same events of our own without a failure have the same replies and lead to one
/// state.
pub fn stretches_are_decided()
    ensures { StretchesAreDecided }
{}

/// A call that is made twice from one plain state, with nobody else stepping and without a failure, asks for the same, has
/// the same replies and the same answer, and leads to one state.
pub fn calls_are_decided<S, A>()
    ensures { CallsAreDecided S A }
{}

/// What such a call asked for before it was broken off is the front of what it asks for when it is made whole from the same
/// state.
pub fn fronts_are_decided<S, A>()
    ensures { FrontsAreDecided S A }
{}

/// Where neither the manager's log is shut nor that of a unit, no entry says that a log was started.
pub fn nothing_settles()
    ensures { NothingSettles }
{}
