//! What holds of every session.

ghost use Rattle.volume_turns.specs.ObjectTurns.{PutObjectsAreGot, PutsAreEarned, PutsAreShown};
ghost use Rattle.volume_turns.specs.Session.{FaultsAreCounted, OneTurnMore};

use object_access::laws::{
    objects_are_got, objects_are_got_back, pieces_are_the_object, put_objects_are_begun,
};

/// A session with a turn behind it is a session, and leads to the state to which that turn leads.
pub fn one_turn_more()
    ensures { OneTurnMore }
{}

/// Each turn that replies that a file failed has an entry that is answered by a fault. So over a way there are no more such
/// turns than its files failed.
pub fn faults_are_counted()
    ensures { FaultsAreCounted }
{}

/// An object is put exactly where the ends of all its blobs are acknowledged, unless the turn breaks off; and an end is so
/// where enough units accepted the blob, before the lease end that its begin saw.
pub fn puts_are_earned()
    ensures { PutsAreEarned }
{}

/// Where the turns lead from state to state, as they do where files tell what they hold, no later get of an object that was put
/// shows other bytes, and no later fetch of one of its blobs shows others than that blob's.
pub fn puts_are_shown()
    ensures { PutsAreShown }
{
    put_objects_are_begun();
    objects_are_got_back();
}

/// Where the turns lead from state to state, a later get of an object that was put has the put's bytes, unless it breaks off: if
/// its blobs aren't asked to be deleted, no read of them fails, few units are on broken disks, each look is heard, and the units
/// don't move at every try.
pub fn put_objects_are_got()
    ensures { PutObjectsAreGot }
{
    pieces_are_the_object();
    put_objects_are_begun();
    objects_are_got();
    objects_are_got_back();
}
