//! The gate after the last record, which a recovery closes.
ghost use Rattle.std.specs.Prelude.{◌≡◌, ◌↔◌, ◌≤◌, [], ◌∷◌, List, ℕ, Some, get_or, option_map, OnOk, OnErr, IfSome, IsSome, IsTrue};
ghost use Rattle.weave_io.specs.Counts.{HasRisen};
ghost use Rattle.store_journal.specs.Commits.{commit_of};
ghost use Rattle.store_journal.specs.Disk.{IsSynced, LeavesOnly, Only, written_at};
ghost use Rattle.store_journal.specs.Journal.{file_commits, gate_of, IsForeign};
ghost use Rattle.store_journal.specs.Standing.{IsAtRest, IsLeftByRecovery};

use crate::disk::Disk;
use weave_io::Failed;

/// Closes the gate after the last record of a disk that is synced, unless it is closed.
pub fn close_gate<D: Disk>(disk: &mut D, gate: u64, is_closed: bool) -> Result<(), Failed>
    // A crash at any moment of the call leaves the file, with another byte at the gate at most.
    ensures any_moment { (bytes : List ℕ) → D.seen disk.old ≡ Some bytes → Only bytes (D.images disk.old)
        → gate ≡ gate_of commit_of bytes → IsTrue is_closed ↔ (get_or bytes gate 1 ≡ 0) → ¬ IsForeign commit_of bytes
        → LeavesOnly D.moment D.images_since disk.old disk.new (IsLeftByRecovery commit_of bytes) }

    // After Ok the disk has the commits that it had, and a closed gate after them.
    ensures closed { OnOk result ((bytes : List ℕ) → IfSome (D.seen disk.old) (λ file. file ≡ bytes)
        → IsSynced (D.seen disk.old) (D.images disk.old)
        → gate ≡ gate_of commit_of bytes → IsTrue is_closed ↔ (get_or bytes gate 1 ≡ 0)
        → IsAtRest commit_of (file_commits commit_of bytes) gate (D.seen disk.new) (D.images disk.new)) }

    // It reads as before but for the gate.
    ensures bytes { OnOk result ((bytes : List ℕ) → IfSome (D.seen disk.old) (λ file. file ≡ bytes)
        → gate ≡ gate_of commit_of bytes → IsTrue is_closed ↔ (get_or bytes gate 1 ≡ 0)
        → D.seen disk.new ≡ option_map (written_at gate (0 ∷ [])) (D.seen disk.old)) }

    ensures no_fault { OnOk result (D.faults disk.new ≡ D.faults disk.old) }
    ensures failed { OnErr result (HasRisen (D.faults disk.old) (D.faults disk.new)) }
    ensures never_falls { D.faults disk.old ≤ D.faults disk.new }
    ensures told { IsSome (D.seen disk.old) → IsSome (D.seen disk.new) }
{
    if is_closed {
        return Ok(());
    }
    disk.write_at(gate, &[0])?;
    disk.sync()?;
    Ok(())
}
