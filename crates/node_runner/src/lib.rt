//! Scripts: the commands that their lines spell, the replies, and a run of a whole script.
//!
//! A run prints exactly the text of the replies to the commands of the lines that it read, says by its
//! status and its count of lines where and why it ended, and hands out its session. A line is read exactly
//! as it spells a command, a reply is printed exactly as its lines are defined, and a `got` line shows no
//! other bytes than the last put of the name carried. The objects of a run are kept as all shards of their
//! blobs; a get copies the data shards that are held.
//!
//! Public calls: `run`, `read_command` and `print_reply`; `may_stand_inside` of `Command`; `from_vec`,
//! `as_slice` and `len` of the lists of a session, `Pasts`, `Saids` and `Spots`; the laws
//! `get_shows_what_was_put`, `put_enters_a_new_name` and `commands_decide_the_session`.
#![tactic(auto)]

mod command;
mod ending;
mod kept;
mod laws;
mod line_run;
mod print;
mod read;
mod reply;
mod root;
mod script_run;
mod session;
mod store;
mod stripe;
mod volume;
mod words;

pub use command::{Body, Command};
pub use laws::{commands_decide_the_session, get_shows_what_was_put, put_enters_a_new_name};
pub use print::print_reply;
pub use read::{CommandFault, read_command};
pub use reply::{LineReply, Refusal};
pub use script_run::{Outcome, run};
pub use session::{Lost, Past, Pasts, Said, Saids, Session, Spot, Spots};
