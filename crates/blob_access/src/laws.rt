//! What holds of every put and get.

ghost use Rattle.blob_access.specs.CauseExamples.{NothingIsRead, TwoOfNineMayBreak};
ghost use Rattle.blob_access.specs.Causes.{GetsGiveTheBlob, ShortGetsHaveACause};
ghost use Rattle.blob_access.specs.Lengths.{GetsAreShort, PutsAreShort};

/// A put asks for no more events than the volume has units, and three.
pub fn puts_are_short()
    ensures { PutsAreShort }
{}

/// A get asks for no more than five looks and four reads of each unit.
pub fn gets_are_short()
    ensures { GetsAreShort }
{}

/// A get that heard too few shards has a cause in its last try: a read failed, too many units were on broken disks, the
/// blob wasn't acknowledged, or its delete was asked for.
pub fn short_gets_have_a_cause()
    ensures { ShortGetsHaveACause }
{}

/// An available blob is got: one that is acknowledged and not asked to be deleted, while no read of it fails and few
/// units are on broken disks. Else its size is another than was asked for, units moved at every try, or a look failed.
pub fn gets_give_the_blob()
    ensures { GetsGiveTheBlob }
{}

/// Of nine units two may be on broken disks. Of a volume whose disks are all broken a get reads nothing.
pub fn examples_hold()
    ensures bound { TwoOfNineMayBreak }
    ensures short { NothingIsRead }
{}
