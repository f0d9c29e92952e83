//! What follows from the definitions, whatever log there is.

ghost use Rattle.volume_entry.specs.Laws.{EpochsOnlyGrow, LogsSayOneThing, StepsShow, StepsWriteLegalRecords};
ghost use Rattle.volume_entry.specs.Spelling.{IsOneToOne};

/// A log of legal records leaves one manager's part and no other.
pub fn logs_say_one_thing()
    ensures { LogsSayOneThing }
{}

/// Behind any legal records, each index's greatest epoch and the number of locks granted are at least what they were,
/// so a number or an epoch that is given anew was never given before.
pub fn epochs_only_grow()
    ensures { EpochsOnlyGrow }
{}

/// What a step shows that isn't refused: a lock waits for the lease and takes free disks with new epochs; a swap has every
/// old unit fenced or broken, enough current units listed, and a row of each blob to be copied heard at each destination; an
/// unlock has every old unit released or broken; a commit has marks of enough current units. A listing under another lock's
/// number isn't heard, and a new lock has heard nothing.
pub fn steps_show()
    ensures { StepsShow }
{}

/// The record that a step writes, where it isn't refused, is legal behind the records before it.
pub fn steps_write_legal_records()
    ensures { StepsWriteLegalRecords }
{}

/// A byte string is the spelling of one record at most, in the log of a volume.
pub fn records_have_one_spelling()
    ensures { IsOneToOne }
{}
