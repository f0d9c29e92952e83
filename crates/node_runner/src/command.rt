//! The commands of a script.

ghost use Rattle.std.specs.Prelude.{◌≡◌};
ghost use Rattle.node_runner.specs.Script.{may_stand_inside};

use code_mode::Mode;
use unit_id::Bytes;

/// What a put writes, as its line spells it.
#[derive(Drop)]
pub enum Body {
    /// The bytes that the line spells; none where it spells none.
    Plain(Bytes),
    /// `len` fill bytes from `seed` on.
    Fill { seed: u64, len: u64 },
}

/// One line of a script.
#[derive(Drop)]
pub enum Command {
    /// `disks D`
    Disks { count: u32 },
    /// `volume MODE`
    Volume { mode: Mode },
    /// `put NAME`, `put NAME HEX`, `put NAME fill SEED LEN`
    Put { name: Bytes, body: Body },
    /// `get NAME`
    Get { name: Bytes },
}

impl Command {
    /// Whether its line may stand inside a block.
    pub fn may_stand_inside(&self) -> bool
        ensures { result ≡ may_stand_inside self.now }
    {
        match self {
            Command::Disks { count: _ } | Command::Volume { mode: _ } => false,
            Command::Put { name: _, body: _ } | Command::Get { name: _ } => true,
        }
    }
}
