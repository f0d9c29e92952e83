//! What a turn needs of its value.
ghost use Rattle.std.specs.Prelude.{◌≡◌, List, length};

/// A value with a past: a list that its calls only lengthen, from an origin that they never change.
pub trait Recorded {
    /// What the value began with, as plain data.
    type Origin;

    /// One entry of the past.
    type Entry;

    ghost origin: { Self → Self.Origin };

    ghost past: { Self → List Self.Entry };

    /// The length of the past.
    fn count(&self) -> u64
        ensures { result ≡ length (past self.now) };
}
