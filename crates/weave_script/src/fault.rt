//! Why a text was not read.

use std::alloc::{AllocError, AllocFailed};

/// What is wrong with a line. Its form is checked first, then its fields from left to right, each for these causes in
/// this order.
#[derive(Clone, Copy, PartialEq, Eq, Debug)]
pub enum Cause {
    /// The input has more than 4,194,304 bytes. The line reported is 0.
    TooLong,
    /// The first line that isn't skipped is no header, or there is no such line.
    Header,
    /// The number of gatekeepers is not 1 to 8.
    Gatekeepers,
    /// The number of shards is not 1 to 16.
    Shards,
    /// The line has none of the forms that are allowed there.
    Line,
    /// A field that is to be a name is none.
    Name,
    /// A field that is to be a number is none, or is outside its range and no other cause is for that.
    Number,
    /// A session's number is not below 64.
    Session,
    /// A gatekeeper's number is not below the number of gatekeepers.
    Gatekeeper,
    /// A shard's number is not below the number of shards.
    Shard,
    /// A bound is over 1,000.
    Bound,
    /// An earlier request has the request's name.
    Taken,
    /// The line names no request of the script, or one of the other kind.
    Request,
    /// It is the 65th operation of its transaction.
    Operations,
    /// It is the 10,001st request.
    Requests,
    /// It is the 1,001st program.
    Programs,
    /// It is the 1,001st `get`.
    Gets,
    /// With the line there are more than 10,000 different names of vertices in operations and programs.
    Vertices,
    /// It is the 100,001st step.
    Steps,
    /// In a report, a stamp doesn't have its form.
    Stamp,
    /// The text ends inside a transaction, or before a report's end. The line reported is one more than the last.
    End,
}

impl Cause {
    ghost use Rattle.std.specs.Prelude.{◌≡◌};
    ghost use Rattle.weave_script.specs.CauseTexts.{cause_text};

    /// Its word.
    pub fn text(&self) -> &'static [u8]
        ensures { result.now ≡ cause_text self.now }
    {
        match *self {
            Cause::TooLong => b"too_long",
            Cause::Header => b"header",
            Cause::Gatekeepers => b"gatekeepers",
            Cause::Shards => b"shards",
            Cause::Line => b"line",
            Cause::Name => b"name",
            Cause::Number => b"number",
            Cause::Session => b"session",
            Cause::Gatekeeper => b"gatekeeper",
            Cause::Shard => b"shard",
            Cause::Bound => b"bound",
            Cause::Taken => b"taken",
            Cause::Request => b"request",
            Cause::Operations => b"operations",
            Cause::Requests => b"requests",
            Cause::Programs => b"programs",
            Cause::Gets => b"gets",
            Cause::Vertices => b"vertices",
            Cause::Steps => b"steps",
            Cause::Stamp => b"stamp",
            Cause::End => b"end",
        }
    }
}

/// Why a text was not read.
#[derive(Clone, Copy, PartialEq, Eq, Debug)]
pub enum ScriptFault {
    /// The first line that can't be accepted, from 1, or 0 for the whole input, and why.
    Refused { line: u32, cause: Cause },
    /// Out of memory.
    Memory,
}

impl From<AllocError> for ScriptFault {
    ghost use Rattle.std.specs.Prelude.{◌≡◌};
    ghost use Rattle.weave_script.specs.declared.fault.ScriptFault.TheVariants.{Memory};

    ghost from_gives = { λ _ fault. fault ≡ Memory };

    fn from(_error: AllocError) -> ScriptFault {
        ScriptFault::Memory
    }
}

impl<T: Drop> From<AllocFailed<T>> for ScriptFault {
    ghost use Rattle.std.specs.Prelude.{◌≡◌};
    ghost use Rattle.weave_script.specs.declared.fault.ScriptFault.TheVariants.{Memory};

    ghost from_gives = { λ _ fault. fault ≡ Memory };

    fn from(_error: AllocFailed<T>) -> ScriptFault {
        ScriptFault::Memory
    }
}

/// Why a line was not read.
#[derive(Clone, Copy, PartialEq, Eq, Debug)]
pub(crate) enum LineFault {
    /// What is wrong with it.
    Refused(Cause),
    /// Out of memory.
    Memory,
}

impl From<AllocError> for LineFault {
    ghost use Rattle.std.specs.Prelude.{◌≡◌};
    ghost use Rattle.weave_script.specs.declared.fault.LineFault.TheVariants.{Memory};

    ghost from_gives = { λ _ fault. fault ≡ Memory };

    fn from(_error: AllocError) -> LineFault {
        LineFault::Memory
    }
}
