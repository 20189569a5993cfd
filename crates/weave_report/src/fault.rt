//! Why a text was not read.

use std::alloc::{AllocError, AllocFailed};

/// What is wrong with a line.
#[derive(Clone, Copy, PartialEq, Eq, Debug)]
pub enum ReportCause {
    /// The first word is not allowed there, the number of words is not that of the form, or a word that the form
    /// fixes is not in its place; a reason of refusal is none; an answer hasn't the form of the script's program; an
    /// item of a record has no `=` or `>`, or its key is out of order or repeated.
    Line,
    /// A field that is to be a name is none.
    Name,
    /// A field that is to be a number is none, or is outside its range.
    Number,
    /// The line names no request of the script, or one of the other kind.
    Request,
    /// A stamp doesn't have its form.
    Stamp,
    /// The text ends before the report does. The line reported is one more than the last.
    End,
}

/// Why a text was not read.
#[derive(Clone, Copy, PartialEq, Eq, Debug)]
pub enum ReportFault {
    /// The first line that can't be accepted, and why.
    Refused { line: u32, cause: ReportCause },
    /// Out of memory.
    Memory,
}

/// Why a line was not read.
#[derive(Clone, Copy, PartialEq, Eq, Debug)]
pub(crate) enum LineFault {
    Refused(ReportCause),
    Memory,
}

impl From<AllocError> for LineFault {
    ghost use Rattle.std.specs.Prelude.{◌≡◌};
    ghost use Rattle.weave_report.specs.declared.fault.LineFault.TheVariants.{Memory};

    ghost from_gives = { λ _ fault. fault ≡ Memory };

    fn from(_error: AllocError) -> LineFault {
        LineFault::Memory
    }
}

impl<T: Drop> From<AllocFailed<T>> for LineFault {
    ghost use Rattle.std.specs.Prelude.{◌≡◌};
    ghost use Rattle.weave_report.specs.declared.fault.LineFault.TheVariants.{Memory};

    ghost from_gives = { λ _ fault. fault ≡ Memory };

    fn from(_error: AllocFailed<T>) -> LineFault {
        LineFault::Memory
    }
}
