//! What holds of every call of a task.

ghost use Rattle.migrate_task.specs.Completion.{LockedTasksGetSwapped, SwappedTasksGetDone, TasksGetDone, TasksGetTheLock};
ghost use Rattle.migrate_task.specs.CompletionExamples.{MadeVolumesCanGoOn};
ghost use Rattle.migrate_task.specs.Endings.{DoneIsUnlocked, LastRepliesTell, RepliesEndCalls, UnlockedIsDone};

/// A call answers that all is done only behind a swap of the units and an unlock of the volume, each of which was
/// replied to as done, and with each old unit released or on a disk that was told to be broken.
pub fn done_is_unlocked()
    ensures { DoneIsUnlocked }
{}

/// A call whose unlock is replied to as done answers that all is done, even where memory is out.
pub fn unlocked_is_done()
    ensures { UnlockedIsDone }
{}

/// A call that doesn't break off answers what the reply to its last event tells.
pub fn last_replies_tell()
    ensures { LastRepliesTell }
{}

/// A reply by which the manager refuses a step, or fails, is the last of a call and its answer.
pub fn replies_end_calls()
    ensures { RepliesEndCalls }
{}

/// A task whose units are swapped is done by one call, while nobody else steps, nothing fails and no chunk is full.
pub fn swapped_tasks_get_done()
    ensures { SwappedTasksGetDone }
{}

/// A task gets the lock of a volume that is free for it, while nobody else steps and nothing fails.
pub fn tasks_get_the_lock()
    ensures { TasksGetTheLock }
{}

/// A task that has its lock swaps its units in one call, also where destinations have to move to other disks, while
/// nobody else steps, nothing fails, no chunk is full, and no more units are on broken disks than a lock can move.
pub fn locked_tasks_get_swapped()
    ensures { LockedTasksGetSwapped }
{}

/// A task that can have the lock of a volume, or has it, is done by one call, while nobody else steps, nothing fails, no
/// chunk is full, and no more units are on broken disks than a lock can move.
pub fn tasks_get_done()
    ensures { TasksGetDone }
{}

/// A task can go on in a volume as made, also where two of its six units are on broken disks; and under its lock, where the
/// destination's disk broke and the target has another.
pub fn examples_hold()
    ensures { MadeVolumesCanGoOn }
{}
