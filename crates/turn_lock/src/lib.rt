//! A value that threads take in turn, and one past that all of them share.
//!
//! A value that is `Recorded` has an origin and a past, a list that only grows. A `Turn` owns it, and a thread takes it
//! with a `Token`, changes it, and gives it back. A token knows its turn, the value's origin, as much of the past as it has
//! seen, the places of the past that its own gives added, how many of the 65,536 parts it has, and whether it has the value.
//!
//! What `take` gives begins with all that its token had seen. After `give` the token has seen what was given, and the places
//! that were added are its own. `join` shows that of two tokens' pasts one begins the other. A token with all parts has seen
//! the whole past and has each of its places exactly once, and `close` gives it the value back. So whoever joins all tokens
//! knows one past in which each step stands once, with each token's own in its order.
//!
//! `take` may wait; nothing is claimed of how long, nor of who comes first. No call but `make` takes memory.
#![tactic(auto)]

mod held;
mod recorded;
mod steps;
#[cfg(test)]
mod tests;
mod token;
mod turn;
mod view;

pub use held::Held;
pub use recorded::Recorded;
pub use token::Token;
pub use turn::{Turn, TurnFault};
