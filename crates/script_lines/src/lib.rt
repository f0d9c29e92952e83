//! The lines of a script, one after another, whatever pieces its source hands out.
//!
//! A line ends at a line feed; a rest that isn't empty is a line too. It is given without its line feed and
//! without one carriage return before it, and never more is held than a line and a piece. A line that is too
//! long is refused, and no error takes anything from what is to come.
//!
//! Public calls: `make`, `next_line` and `into_source` of `Feed`, and the law `lines_come_one_by_one`.
#![tactic(auto)]

mod feed;

pub use feed::{Feed, LineBuffer, LineFault, lines_come_one_by_one};
