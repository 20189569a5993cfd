//! A record that is added on the disk and in memory.
ghost use Rattle.std.specs.Prelude.{◌≡◌, ◌<◌, ◌≤◌, ◌+◌, ◌++◌, [], ◌∷◌, List, Some, length, take, drop, slice_set, option_map, OnOk, OnErr, IsSome};
ghost use Rattle.weave_io.specs.Counts.{HasRisen};
ghost use Rattle.store_journal.specs.Commits.{commit_of};
ghost use Rattle.store_journal.specs.Disk.{LeavesOnly, written_at};
ghost use Rattle.store_journal.specs.Standing.{IsAtRest, IsJournal, IsRecord};
ghost use Rattle.store_journal.specs.declared.kept_commit.Commit.{Commit};

use crate::disk::Disk;
use crate::record::add_record;
use weave_io::Failed;

/// Adds the record that a journal in memory has after its closed gate to the disk, and opens that gate in memory too.
/// If a call of the disk fails, the record is taken out of the journal in memory.
pub fn keep_record<D: Disk>(disk: &mut D, journal: &mut Vec<u8>, gate: usize) -> Result<(), Failed>
    requires { gate < length journal.old.items }
    ensures opened { OnOk result (journal.new.items ≡ slice_set journal.old.items gate 1) }
    ensures cut { OnErr result (journal.new.items ≡ take (gate + 1) journal.old.items) }

    // As in `add_record`.
    ensures any_moment { (commits : List Commit) (next : Commit)
        → IsAtRest commit_of commits gate (D.seen disk.old) (D.images disk.old)
        → IsRecord commit_of commits next (drop (gate + 1) journal.old.items) → IsSome (D.seen disk.old)
        → LeavesOnly D.moment D.images_since disk.old disk.new (IsJournal commit_of commits (Some next)) }
    ensures acknowledged { OnOk result ((commits : List Commit) (next : Commit)
        → IsAtRest commit_of commits gate (D.seen disk.old) (D.images disk.old)
        → IsRecord commit_of commits next (drop (gate + 1) journal.old.items)
        → IsAtRest commit_of (commits ++ next ∷ []) (gate + length (drop (gate + 1) journal.old.items))
        (D.seen disk.new) (D.images disk.new)) }

    ensures bytes { OnOk result ((commits : List Commit)
        → IsAtRest commit_of commits gate (D.seen disk.old) (D.images disk.old)
        → D.seen disk.new ≡ option_map (written_at gate (1 ∷ drop (gate + 1) journal.old.items)) (D.seen disk.old)) }

    ensures failed { OnErr result (HasRisen (D.faults disk.old) (D.faults disk.new)) }
    ensures no_fault { OnOk result (D.faults disk.new ≡ D.faults disk.old) }
    ensures never_falls { D.faults disk.old ≤ D.faults disk.new }
    ensures told { IsSome (D.seen disk.old) → IsSome (D.seen disk.new) }
{
    match add_record(disk, gate as u64, &journal.as_slice()[gate + 1..]) {
        Ok(()) => {
            journal[gate] = 1;
            Ok(())
        }
        Err(failed) => {
            journal.truncate(gate + 1);
            Err(failed)
        }
    }
}
