//! What becomes of messages.

/// What becomes of a request that is sent to a disk, and of its answer.
#[derive(Clone, Copy, Debug, PartialEq, Eq)]
pub enum Fate {
    /// It is handled, and its answer is heard.
    Pass,
    /// It is never handled.
    Lose,
    /// It is handled, and its answer is never heard.
    LoseReply,
    /// It is handled now, and its answer is heard later.
    LateReply,
    /// It is handled later.
    LateRequest,
    /// It is handled now and heard, and handled once more later.
    Again,
    /// It is handled and heard after ten ticks.
    Slow,
}
