//! What a command is answered.

use crate::command::Command;
use code_mode::Mode;
use unit_id::Bytes;

/// Why a command was refused.
#[derive(Drop)]
pub enum Refusal {
    /// The disks were given before; `have` is their number.
    Given { have: u32 },
    /// A limit of the store would be passed.
    Limit,
    /// The mode needs `need` disks, and there are `have`.
    FewDisks { have: u32, need: u32 },
    /// The object has no bytes.
    Empty,
    /// The object has too many bytes.
    TooLarge,
    /// An object of this name is there.
    NameTaken,
    /// No object has this name.
    NoName,
    /// No volume can take the object.
    NoVolume,
}

/// The reply to one command.
#[derive(Drop)]
pub enum LineReply {
    Disks {
        count: u32,
    },
    Volume {
        vid: u32,
        mode: Mode,
    },
    Put {
        name: Bytes,
        vid: u32,
        bid: u64,
        size: u32,
    },
    Got {
        name: Bytes,
        bytes: Bytes,
    },
    Refused {
        command: Command,
        cause: Refusal,
    },
}
