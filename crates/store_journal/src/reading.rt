//! Reading a disk whole.
ghost use Rattle.std.specs.Prelude.{◌≡◌, ◌<◌, ◌≤◌, vec_len, length, IfOk, OnOk, OnErr, IsErrOf, IfSome, IsSome};
ghost use Rattle.weave_io.specs.Counts.{HasRisen};
ghost use Rattle.store_journal.specs.Disk.{AddsNone, IsSynced, LeavesOnly};
ghost use Rattle.store_journal.specs.KeptAnswers.{IfForeign};

use crate::disk::Disk;
use crate::faults::RecoverFault;
use std::alloc::{AllocError, Global};

/// How many bytes a call of the disk may give.
const PIECE: usize = 65_536;

/// Syncs a disk, and reads all its bytes.
pub fn read_synced<D: Disk>(alloc: Global, disk: &mut D) -> Result<Vec<u8>, RecoverFault>
    ensures all { IfOk result (λ bytes. IfSome (D.seen disk.new) (λ file. file ≡ bytes.items)) }
    ensures same { OnOk result (D.seen disk.new ≡ D.seen disk.old) }
    ensures synced { OnOk result (IsSynced (D.seen disk.new) (D.images disk.new)) }

    // A crash at any moment of the call leaves an image that it might have left before.
    ensures any_moment { LeavesOnly D.moment D.images_since disk.old disk.new (D.images disk.old) }
    ensures crash { AddsNone (D.images disk.old) (D.images disk.new) }

    ensures not_foreign { IfForeign result (λ at. ⊥) }
    ensures failed { IsErrOf result RecoverFault.Disk → HasRisen (D.faults disk.old) (D.faults disk.new) }
    ensures no_fault { OnOk result (D.faults disk.new ≡ D.faults disk.old) }
    ensures never_falls { D.faults disk.old ≤ D.faults disk.new }
    ensures told { IsSome (D.seen disk.old) → IsSome (D.seen disk.new) }
{
    disk.sync()?;
    let mut storage = zeroes(alloc, PIECE)?;
    let buffer = storage.as_mut_slice();
    let mut bytes = Vec::new(alloc);
    loop {
        let count = disk.read(bytes.len() as u64, buffer)?;
        if count == 0 {
            return Ok(bytes);
        }
        bytes.extend_from_slice(&buffer[..count])?;
    }
}

// Apart, so that no proof spells out so long a list. (As in weave_io.)
fn zeroes(alloc: Global, count: usize) -> Result<Vec<u8>, AllocError>
    ensures { IfOk result (λ zeroes. vec_len zeroes ≡ count) }
{
    vec![in alloc; 0u8; count]
}
