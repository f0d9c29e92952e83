//! Laws of sessions: what the replies to a script's commands have to do with each other.

ghost use Rattle.node_runner.specs.Session.{ShowsWhatWasPut, EntersNewNames, CommandsDecide};

/// A get prints no other bytes: each `got` line of a session has the bytes of the last put of its name
/// that was done before it.
pub fn get_shows_what_was_put()
    ensures { ShowsWhatWasPut }
{}

/// A put enters no name that stands for bytes already.
pub fn put_enters_a_new_name()
    ensures { EntersNewNames }
{}

/// The commands of a session decide its replies: there is one session of them.
pub fn commands_decide_the_session()
    ensures { CommandsDecide }
{}
