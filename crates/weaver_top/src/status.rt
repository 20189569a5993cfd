//! How a command ends.
ghost use Rattle.std.specs.Prelude.{◌≡◌};

use std::process::ExitCode;

/// How a command ends. Its number is the program's exit code.
#[derive(Clone, Copy, PartialEq, Eq, Debug)]
pub enum Status {
    /// The work was done, and its text is written.
    Done,
    /// The source failed. Nothing is written.
    Read,
    /// The input is too long or not in the grammar. `refused LINE CAUSE` is written.
    Refused,
    /// The sink failed, or took nothing. A prefix of the text is written.
    Write,
    /// Out of memory. Nothing is written.
    Memory,
    /// The command line has no command. Nothing is read or written.
    Words,
    /// `check`: the report isn't right. `no CLAUSE PLACE` is written.
    NotRight,
    /// `keep`: a call of the disk failed. Nothing is written; what was committed before stays.
    Disk,
    /// `keep`: the file is no journal. Nothing is written, and the file is as before.
    Foreign,
}

impl Status {
    ghost use Rattle.std.specs.Process.{exit_status};
    ghost use Rattle.weaver_top.specs.Statuses.{status_number};

    /// The number of the status, 0 to 8.
    pub fn number(self) -> u8
        ensures { result ≡ status_number self }
    {
        self as u8
    }

    /// The exit code of a program that ends with this status.
    pub fn exit_code(self) -> ExitCode
        ensures { exit_status result ≡ status_number self }
    {
        ExitCode::from(self.number())
    }
}
