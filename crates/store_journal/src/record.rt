//! A record, added after those of a journal at rest.
ghost use Rattle.std.specs.Prelude.{◌≡◌, ◌<◌, ◌≤◌, ◌+◌, ◌^◌, ◌++◌, [], ◌∷◌, List, Some, length, option_map, OnOk, OnErr, IsSome};
ghost use Rattle.weave_io.specs.Counts.{HasRisen};
ghost use Rattle.store_journal.specs.Commits.{commit_of};
ghost use Rattle.store_journal.specs.Disk.{LeavesOnly, written_at};
ghost use Rattle.store_journal.specs.Standing.{IsAtRest, IsJournal, IsRecord};
ghost use Rattle.store_journal.specs.declared.kept_commit.Commit.{Commit};

use crate::disk::Disk;
use weave_io::Failed;

/// Adds a record to a journal whose closed gate is at `gate`: writes it with a closed gate of its own after that gate,
/// syncs, opens the gate, and syncs. `bytes` has the record without its gate byte, and a closed gate.
pub fn add_record<D: Disk>(disk: &mut D, gate: u64, bytes: &[u8]) -> Result<(), Failed>
    requires { gate + 1 < 2 ^ 64 }

    // A crash at any moment of the call leaves the commits from before it, with the new one or without.
    ensures any_moment { (commits : List Commit) (next : Commit)
        → IsAtRest commit_of commits gate (D.seen disk.old) (D.images disk.old)
        → IsRecord commit_of commits next bytes.now → IsSome (D.seen disk.old)
        → LeavesOnly D.moment D.images_since disk.old disk.new (IsJournal commit_of commits (Some next)) }

    // After Ok the new commit is on the disk, and each crash from then on leaves it.
    ensures acknowledged { OnOk result ((commits : List Commit) (next : Commit)
        → IsAtRest commit_of commits gate (D.seen disk.old) (D.images disk.old)
        → IsRecord commit_of commits next bytes.now
        → IsAtRest commit_of (commits ++ next ∷ []) (gate + length bytes.now) (D.seen disk.new) (D.images disk.new)) }

    // The disk reads as the record with its gate open, and as before elsewhere.
    ensures bytes { OnOk result ((commits : List Commit)
        → IsAtRest commit_of commits gate (D.seen disk.old) (D.images disk.old)
        → D.seen disk.new ≡ option_map (written_at gate (1 ∷ bytes.now)) (D.seen disk.old)) }

    ensures failed { OnErr result (HasRisen (D.faults disk.old) (D.faults disk.new)) }
    ensures no_fault { OnOk result (D.faults disk.new ≡ D.faults disk.old) }
    ensures never_falls { D.faults disk.old ≤ D.faults disk.new }
    ensures told { IsSome (D.seen disk.old) → IsSome (D.seen disk.new) }
{
    disk.write_at(gate + 1, bytes)?;
    disk.sync()?;
    disk.write_at(gate, &[1])?;
    disk.sync()?;
    Ok(())
}
