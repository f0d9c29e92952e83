//! What holds of all spellings.

ghost use Rattle.shard_record.specs.Rows.{AreDeletesKept, AreGoneRowsKept, IsFirstFenceKept, IsReleaseTheEnd};
ghost use Rattle.shard_record.specs.Spelling.{IsOneToOne, IsPrefixFree, IsSpelledOrRefused};

/// A byte string is the spelling of one record at most.
pub fn spelling_is_one_to_one()
    ensures { IsOneToOne }
{}

/// No spelling begins another one.
pub fn no_spelling_begins_another()
    ensures { IsPrefixFree }
{}

/// A byte string fails no test exactly where it is the spelling of a record.
pub fn spelled_or_refused()
    ensures { IsSpelledOrRefused }
{}

/// A row that is marked or gone stays so, whatever records follow, while the unit isn't released.
pub fn deletes_are_kept()
    ensures { AreDeletesKept }
{}

/// A row that is gone stays gone, whatever records follow, while the unit isn't released.
pub fn gone_rows_stay_gone()
    ensures { AreGoneRowsKept }
{}

/// The first fence stays, whatever records follow, while the unit isn't released.
pub fn first_fence_stays()
    ensures { IsFirstFenceKept }
{}

/// Nothing follows a release: no record changes the rows of a released unit, which are none.
pub fn nothing_follows_a_release()
    ensures { IsReleaseTheEnd }
{}
