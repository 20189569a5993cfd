//! What can go wrong with input and output.

use std::alloc::AllocError;
use thiserror::Error;

/// A call of a source or a sink failed.
#[derive(Clone, Copy, PartialEq, Eq, Debug)]
pub struct Failed;

/// Why the input was not read.
#[derive(Clone, Copy, PartialEq, Eq, Debug, Error)]
pub enum ReadFault {
    /// A call of the source failed.
    #[error("the input could not be read")]
    Read,
    /// The source gave more bytes than an input may have.
    #[error("the input is too long")]
    TooLong,
    /// Out of memory.
    #[error("out of memory")]
    Memory,
}

/// The output was not written: a call of the sink failed, or the sink took nothing.
#[derive(Clone, Copy, PartialEq, Eq, Debug, Error)]
#[error("the output could not be written")]
pub struct WriteFault;

impl From<Failed> for ReadFault {
    ghost use Rattle.std.specs.Prelude.{◌≡◌};
    ghost use Rattle.weave_io.specs.declared.faults.ReadFault.TheVariants.{Read};

    ghost from_gives = { λ _ fault. fault ≡ Read };

    fn from(_failed: Failed) -> ReadFault {
        ReadFault::Read
    }
}

impl From<AllocError> for ReadFault {
    ghost use Rattle.std.specs.Prelude.{◌≡◌};
    ghost use Rattle.weave_io.specs.declared.faults.ReadFault.TheVariants.{Memory};

    ghost from_gives = { λ _ fault. fault ≡ Memory };

    fn from(_error: AllocError) -> ReadFault {
        ReadFault::Memory
    }
}

impl From<Failed> for WriteFault {
    fn from(_failed: Failed) -> WriteFault {
        WriteFault
    }
}
