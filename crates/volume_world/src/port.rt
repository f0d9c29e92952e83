//! A way to a volume.

ghost use Rattle.std.specs.Prelude.{◌≡◌};
ghost use Rattle.volume_world.specs.Asking.{MayAsk};
ghost use Rattle.volume_world.specs.Course.{StepsBy};
ghost use Rattle.volume_world.specs.Way.{WayView, IsWay};

use crate::{Event, Reply, StepFault};
use code_mode::Mode;

/// A way to one volume, by which puts, gets, tasks and sweeps step it, wherever it is kept and whoever else steps it
/// meanwhile.
///
/// It is seen as a `WayView`: the volume as it was made, what the way has seen of the volume's history, which of these
/// entries its own steps added, how often a file of the volume has failed, and in which states the volume may be. No
/// memory holds such a state; the entries lead to it.
///
/// **Steps.** Behind what was seen before stand the entries that others added meanwhile, then at most two settles, of
/// logs that were shut and are started, and then the event with its reply. From each state in which the volume may have
/// been these entries lead to one in which it may be, where its files tell what they hold. So whoever calls twice can
/// follow one state through both calls. A shard that is read is the one that belongs to its unit, of the payload with
/// which its blob was begun, and a listing shows all rows of its unit.
///
/// **Faults.** A reply is or carries `Fault` no more often than files of the volume failed.
pub trait Port {
    /// What the way is seen as.
    ghost seen: { Self → WayView };

    /// Has one event happen.
    ///
    /// # Errors
    ///
    /// `HistoryFull` exactly where the history has 2^32 - 3 entries or more once others have stepped; nothing is done then.
    /// After `Memory` the event isn't done, though logs may be started.
    fn step(&mut self, event: Event) -> Result<Reply, StepFault>
        requires { MayAsk (seen self.old) event }
        ensures { StepsBy (seen self.old) (seen self.new) event result };

    /// The volume's mode.
    fn mode(&self) -> Mode
        ensures { result ≡ (seen self.now).origin.mode };

    /// The volume's number.
    fn vid(&self) -> u32
        ensures { result ≡ (seen self.now).origin.vid };

    /// What is true of every way to a volume is true of this one. It does nothing.
    fn is_way(&self)
        ensures { IsWay (seen self.now) };
}
