//! What holds of a volume whatever moves are made.

ghost use Rattle.volume_world.specs.Laws.{AcksAreExact, BytesStayAsBegun, DisksHoldOneUnit, DoubtsAreSingle, IsAlwaysKept, IsReadable, IsUnreadable, OldEpochsAreFenced, ReleasesAreSafe, RunsAreBorneOut, RunsKeep, RunsStayReadable, StartsKept};

/// A volume as made has what is kept.
pub fn starts_kept()
    ensures { StartsKept }
{}

/// No list of moves loses what is kept.
pub fn always_kept()
    ensures { IsAlwaysKept }
{}

/// No legal run loses what is kept.
pub fn runs_keep()
    ensures { RunsKeep }
{}

/// Enough units hold an acknowledged blob.
pub fn stays_readable()
    ensures { IsReadable }
{}

/// Of a committed delete too few live rows are left to read the blob.
pub fn stays_deleted()
    ensures { IsUnreadable }
{}

/// Where a unit is given up, the unit in its place has every acknowledged blob that nobody asked to delete.
pub fn releases_are_safe()
    ensures { ReleasesAreSafe }
{}

/// Old units take no writes: what was sent under an epoch that is past is neither done nor accepted.
pub fn old_epochs_are_fenced()
    ensures { OldEpochsAreFenced }
{}

/// Every live row holds the shard of its unit of the payload with which its blob was begun, and so does every
/// shard that a put or a copy carries and every shard that a read gives, where senders of puts and copies send
/// no other.
pub fn bytes_stay_as_begun()
    ensures { BytesStayAsBegun }
{}

/// A put is acknowledged exactly where its end comes before the lease end that its begin saw, with a quorum of accepted
/// indexes; and each of these was accepted by the unit that is its current one.
pub fn acks_are_exact()
    ensures { AcksAreExact }
{}

/// What a legal run says of a blob, that it was begun, acknowledged, committed or never asked for deletion, its last
/// state has.
pub fn runs_are_borne_out()
    ensures { RunsAreBorneOut }
{}

/// After any legal run of a volume from its making on, a blob that the run acknowledged and nobody asked to delete has live
/// rows at as many as there are data shards of any unbroken current units that are enough to see; and one whose delete the
/// run committed has fewer at all unbroken current units.
pub fn runs_stay_readable()
    ensures { RunsStayReadable }
{}

/// From the making of a volume on, no disk that isn't broken has two of its units that were made and not released.
pub fn disks_hold_one_unit()
    ensures { DisksHoldOneUnit }
{}

/// From the making of a volume on, no disk that isn't broken has two units with a record in doubt.
pub fn doubts_are_single()
    ensures { DoubtsAreSingle }
{}
