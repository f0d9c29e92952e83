//! Where bytes go, one after another.

ghost use Rattle.std.specs.Prelude.{◌<◌, ◌≤◌, length, IfOk};
ghost use Rattle.disk_base.specs.Streams.{SinkView, Pushes, Finishes};

use crate::Failed;

/// A stream of bytes that is written at its end.
pub trait Sink {
    /// The bytes that were pushed so far, where the sink tells them, how often a push or a finish has
    /// failed, and whether all that was pushed is handed on.
    ghost seen: { Self → SinkView };

    /// Takes bytes from the front of `bytes`, as many as the sink likes and at least one, and answers
    /// how many. `bytes` has at least one byte. After `Failed` the sink has what it had.
    fn push(&mut self, bytes: &[u8]) -> Result<usize, Failed>
        requires { 0 < length bytes.now }
        ensures count { IfOk result (λ n. (1 ≤ n) × (n ≤ length bytes.now)) }
        ensures pushes { Pushes bytes.now (seen self.old) (seen self.new) result };

    /// Hands on whatever was pushed and still waits somewhere.
    fn finish(&mut self) -> Result<(), Failed>
        ensures { Finishes (seen self.old) (seen self.new) result };
}
