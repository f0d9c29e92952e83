//! Where bytes come from, one after another.

ghost use Rattle.std.specs.Prelude.{◌≡◌, ◌<◌, ◌≤◌, length, IfOk, true};
ghost use Rattle.disk_base.specs.Streams.{SourceView, Pulls};

use crate::Failed;

/// A stream of bytes that is read from its front to its end.
pub trait Source {
    /// The bytes that are left to read, where the source tells them, how often a pull has failed, and
    /// whether the source says that none of its pulls ever fails.
    ghost seen: { Self → SourceView };

    /// Moves the next bytes to the front of `out`, as many as the source likes, and answers how many;
    /// 0 is the end of input. `out` has at least one byte. After `Failed` the source has what it had.
    fn pull(&mut self, out: &mut [u8]) -> Result<usize, Failed>
        requires { 0 < length out.old }
        ensures count { IfOk result (λ n. n ≤ length out.new) }
        ensures pulls { Pulls out.new (seen self.old) (seen self.new) result };

    /// A source that never fails has never failed.
    ghost quiet_has_no_fault: { (source : Self) → (seen source).is_quiet ≡ true → (seen source).faults ≡ 0 };
}
