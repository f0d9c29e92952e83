//! Worked examples, by computing.

ghost use Rattle.volume_world.specs.Examples.{EachAnswer, EachDoubt, TheFirstSteps, TheManagersTour, TwoAreMoved};
ghost use Rattle.volume_world.specs.Stories.{LatePutIsDeleted, LifeIsLegal, PutIsAcked, RestartForgets};

/// Steps of a manager, the first steps of a volume, each answer to a put, two units moved by one lock, and each record
/// left in doubt.
pub fn steps_hold()
    ensures manager { TheManagersTour }
    ensures first { TheFirstSteps }
    ensures answers { EachAnswer }
    ensures two { TwoAreMoved }
    ensures doubts { EachDoubt }
{}

/// A put that is acknowledged at eight of nine, a life of a blob, a delete with a late put, and a restart before a swap.
pub fn stories_hold()
    ensures put { PutIsAcked }
    ensures life { LifeIsLegal }
    ensures delete { LatePutIsDeleted }
    ensures restart { RestartForgets }
{}
