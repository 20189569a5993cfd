//! What can go wrong with a disk.

use std::alloc::AllocError;
use weave_io::Failed;

/// Why a journal was not recovered.
#[derive(Clone, Copy, PartialEq, Eq, Debug)]
pub enum RecoverFault {
    /// A call of the disk failed.
    Disk,
    /// The file isn't a journal: the gate byte at this place is 1, with no whole record after it.
    Foreign { at: u64 },
    /// Out of memory.
    Memory,
}

impl From<Failed> for RecoverFault {
    ghost use Rattle.std.specs.Prelude.{◌≡◌};
    ghost use Rattle.store_journal.specs.declared.faults.RecoverFault.TheVariants.{Disk};

    ghost from_gives = { λ _ fault. fault ≡ Disk };

    fn from(_failed: Failed) -> RecoverFault {
        RecoverFault::Disk
    }
}

impl From<AllocError> for RecoverFault {
    ghost use Rattle.std.specs.Prelude.{◌≡◌};
    ghost use Rattle.store_journal.specs.declared.faults.RecoverFault.TheVariants.{Memory};

    ghost from_gives = { λ _ fault. fault ≡ Memory };

    fn from(_error: AllocError) -> RecoverFault {
        RecoverFault::Memory
    }
}

/// Why a transaction was not kept.
#[derive(Clone, Copy, PartialEq, Eq, Debug)]
pub enum KeepFault {
    /// A call of the disk failed in this commit. The journal has to be recovered again: the transaction may be in it.
    Disk,
    /// A call of the disk failed in a commit before this one. Nothing was done.
    Halted,
    /// Out of memory. Nothing was changed.
    Memory,
}

impl From<AllocError> for KeepFault {
    ghost use Rattle.std.specs.Prelude.{◌≡◌};
    ghost use Rattle.store_journal.specs.declared.faults.KeepFault.TheVariants.{Memory};

    ghost from_gives = { λ _ fault. fault ≡ Memory };

    fn from(_error: AllocError) -> KeepFault {
        KeepFault::Memory
    }
}
