//! How a run ends.
ghost use Rattle.std.specs.Prelude.{◌≡◌};
ghost use Rattle.std.specs.Process.{exit_status};
ghost use Rattle.block_cli.specs.Statuses.{exit_number};

use std::process::ExitCode;

/// The status of a run; its number is the program's exit status.
#[derive(Clone, Copy, Debug, PartialEq, Eq)]
pub enum Status {
    /// All was done: a block is accepted, and the next state is written.
    Done = 0,
    /// The block is refused: its parent isn't the digest of the state.
    Refused = 1,
    /// The words are no command: one too few, or 65 workers.
    Usage = 2,
    /// A file couldn't be read: it isn't there.
    ReadFault = 3,
    /// A file couldn't be written, or the line of status 0 printed: the disk is full.
    WriteFault = 4,
    /// Memory ran out: the process may take less than the state needs.
    NoMemory = 5,
    /// A file other than the block is at fault: a state that is cut by one byte. Or any file is longer
    /// than 64 MiB.
    BadInput = 6,
}

impl Status {
    /// What the process ends with.
    pub fn exit_code(self) -> ExitCode
        ensures { exit_status result ≡ exit_number self }
    {
        ExitCode::from(self as u8)
    }
}
