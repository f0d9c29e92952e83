//! How a run ends.

ghost use Rattle.std.specs.Prelude.{◌≡◌};
ghost use Rattle.node_runner.specs.Run.{status_of, is_closed};

use crate::read::CommandFault;
use disk_base::FarmFault;
use script_lines::LineFault;

/// How a run of a script ended.
#[derive(Clone, Copy, Debug, PartialEq, Eq)]
pub enum Ending {
    /// The input was read to its end, and every line ran.
    Whole,
    /// The next line isn't in the language.
    BadLine,
    /// The words aren't one root.
    Usage,
    /// The source failed.
    ReadFault,
    /// The sink failed.
    WriteFault,
    /// The allocator had no memory left.
    OutOfMemory,
    /// The farm failed as it was asked for the root.
    RootFault,
    /// The root has content.
    RootNotEmpty,
}

impl From<LineFault> for Ending {
    ghost use Rattle.node_runner.specs.Progress.{ending_of_line};

    ghost from_gives = { λ fault ending. ending ≡ ending_of_line fault };

    fn from(fault: LineFault) -> Ending {
        match fault {
            LineFault::Read => Ending::ReadFault,
            LineFault::TooLong => Ending::BadLine,
            LineFault::Memory => Ending::OutOfMemory,
        }
    }
}

impl From<CommandFault> for Ending {
    ghost use Rattle.node_runner.specs.Progress.{ending_of_command};

    ghost from_gives = { λ fault ending. ending ≡ ending_of_command fault };

    fn from(fault: CommandFault) -> Ending {
        match fault {
            CommandFault::Bad => Ending::BadLine,
            CommandFault::Memory => Ending::OutOfMemory,
        }
    }
}

impl From<FarmFault> for Ending {
    ghost use Rattle.node_runner.specs.Beginning.{ending_of_refusal};

    ghost from_gives = { λ fault ending. ending ≡ ending_of_refusal fault };

    fn from(fault: FarmFault) -> Ending {
        match fault {
            FarmFault::NotEmpty => Ending::RootNotEmpty,
            FarmFault::Failed => Ending::RootFault,
            FarmFault::Memory => Ending::OutOfMemory,
        }
    }
}

impl Ending {
    /// The status that the program ends with.
    pub fn status(self) -> u8
        ensures { result ≡ status_of self }
    {
        match self {
            Ending::Whole => 0,
            Ending::BadLine => 1,
            Ending::Usage => 2,
            Ending::ReadFault => 3,
            Ending::WriteFault => 4,
            Ending::OutOfMemory => 5,
            Ending::RootFault => 6,
            Ending::RootNotEmpty => 7,
        }
    }

    /// Whether the sink is asked to hand on what it holds, behind the last line.
    pub fn is_closed(self) -> bool
        ensures { result ≡ is_closed self }
    {
        match self {
            Ending::Whole | Ending::BadLine | Ending::ReadFault => true,
            Ending::Usage
            | Ending::WriteFault
            | Ending::OutOfMemory
            | Ending::RootFault
            | Ending::RootNotEmpty => false,
        }
    }
}
