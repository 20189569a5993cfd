//! A store whose commits are in a journal on a disk.
ghost use Rattle.std.specs.Prelude.{◌≡◌, ◌↔◌, ◌<◌, ◌≤◌, ◌+◌, ◌∷◌, ◌++◌, [], List, ℕ, Option, Some, true, false, length, get_or, option_map, IfOk, OnOk, OnErr, IfSome, IsSome, IsTrue, IsErrOf, is_ok};
ghost use Rattle.std.specs.List.{AllByRecursion};
ghost use Rattle.weave_data.specs.Limits.{most_ops};
ghost use Rattle.weave_io.specs.Counts.{HasRisen};
ghost use Rattle.weave_script.specs.Scripts.{IsOfVersion};
ghost use Rattle.graph_ops.specs.PlainGraph.{transaction};
ghost use Rattle.store_journal.specs.CommitEnds.{CommitEnds};
ghost use Rattle.store_journal.specs.Commits.{commit_of, graph_of};
ghost use Rattle.store_journal.specs.Disk.{ComesFrom, LeavesOnly, written_at};
ghost use Rattle.store_journal.specs.Journal.{file_commits, gate_of, IsForeign};
ghost use Rattle.store_journal.specs.KeptAnswers.{IfForeign, IfCommitted, IfTurnedDown, IfUnwritten, IsCommitted, IsTurnedDown, IsStamped, ReadsWithRecord, next_commit};
ghost use Rattle.store_journal.specs.Payloads.{has_join};
ghost use Rattle.store_journal.specs.Standing.{HasPrefix, IsAtRest, IsJournal, IsLeftByRecovery};
ghost use Rattle.store_journal.specs.declared.kept_commit.Commit.{Commit};

use crate::disk::Disk;
use crate::faults::{KeepFault, RecoverFault};
use crate::gate::close_gate;
use crate::judging::judge;
use crate::kept::Kept;
use crate::kept_record::keep_record;
use crate::laws::payloads_say_commits;
use crate::payload::kept_stamp;
use crate::reading::read_synced;
use crate::walk::walk;
use graph_ops::{Graph, Op, TxFault};
use std::alloc::Global;
use std::marker::Model;
use vector_stamp::laws::clocks_keep_the_laws;

/// A store of which each commit is on a disk. Contracts see its commits, the place of the closed gate after their
/// records, its epoch, how many transactions were stamped in that epoch, and whether it is halted.
///
/// It doesn't keep the disk: each call is handed it, as the last one left it.
#[derive(Drop)]
pub struct KeptStore {
    /// The journal as it is on the disk, up to its closed gate.
    journal: Vec<u8>,
    number: u64,
    epoch: u64,
    count: u64,
    graph: Graph,
    is_halted: bool,
}

impl Model for KeptStore {
    ghost use Rattle.std.specs.Prelude.{◌-◌, length};
    ghost use Rattle.store_journal.specs.Keeping.{Keeping, KeepsJournal, kept_commits};

    ghost Value = { Keeping };

    ghost view = { λ s. record {
      commits = kept_commits s.journal.items;
      place = length s.journal.items - 1;
      epoch = s.epoch;
      count = s.count;
      is_halted = s.is_halted;
    } };

    ghost invariant = { λ s. KeepsJournal s.journal.items s.number s.epoch s.count s.graph s.is_halted };
}

impl KeptStore {
    /// The store of the journal on a disk. Its epoch is one more than the number of its commits. It syncs the disk,
    /// reads all of it, and closes the gate after the last whole record.
    pub fn recover<D: Disk>(alloc: Global, disk: &mut D) -> Result<KeptStore, RecoverFault>
        // The commits are those of the disk as it read, and as it reads now: as before, with a closed gate after them.
        ensures recovered { IfOk result (λ store. IfSome (D.seen disk.old) (λ file.
            store.commits ≡ file_commits commit_of file)) }
        ensures commits { IfOk result (λ store. IfSome (D.seen disk.new) (λ file.
            store.commits ≡ file_commits commit_of file)) }
        ensures at_rest { IfOk result (λ store.
            IsAtRest commit_of store.commits store.place (D.seen disk.new) (D.images disk.new)) }
        ensures bytes { IfOk result (λ store.
            D.seen disk.new ≡ option_map (written_at store.place (0 ∷ [])) (D.seen disk.old)) }
        ensures epoch { IfOk result (λ store. store.epoch ≡ length store.commits + 1) }
        ensures fresh { IfOk result (λ store. (store.count ≡ 0) × (store.is_halted ≡ false)) }

        // A crash at any moment of the call leaves an image that it might have left before, with another byte at the
        // gate at most. A foreign file stays as it is, no whole record is lost, and a journal stays one.
        ensures from_an_image { IsSome (D.seen disk.old) → LeavesOnly D.moment D.images_since disk.old disk.new
            (ComesFrom (IsLeftByRecovery commit_of) (D.images disk.old)) }

        // So it leaves an image of the same journal.
        ensures any_moment { (commits : List Commit) (pending : Option Commit) → IsSome (D.seen disk.old)
            → ((c : List ℕ) → D.images disk.old c → IsJournal commit_of commits pending c)
            → LeavesOnly D.moment D.images_since disk.old disk.new (IsJournal commit_of commits pending) }

        // The law of kept commits begins anew at Ok. Until then it goes on from before, if the images are of the
        // journal that it speaks of.
        ensures begins { IfOk result (λ store. IsSome (D.seen disk.old)
            → LeavesOnly D.moment D.images_since disk.new disk.new (HasPrefix commit_of store.commits [])) }
        ensures law { (start : D) (commits since : List Commit) (next : Commit) → IsSome (D.seen disk.old)
            → ((c : List ℕ) → D.images disk.old c → IsJournal commit_of (commits ++ since) (Some next) c)
            → LeavesOnly D.moment D.images_since start disk.old (HasPrefix commit_of commits (since ++ next ∷ []))
            → LeavesOnly D.moment D.images_since start disk.new (HasPrefix commit_of commits (since ++ next ∷ [])) }

        // The file is foreign exactly if it has more than one byte, and a gate byte 1 with no whole record after it.
        ensures foreign { IfForeign result (λ at. IfSome (D.seen disk.old) (λ file.
            IsForeign commit_of file × (at ≡ gate_of commit_of file))) }
        ensures not_foreign { OnOk result (IfSome (D.seen disk.old) (λ file. ¬ IsForeign commit_of file)) }
        ensures unwritten { IfForeign result (λ at. D.seen disk.new ≡ D.seen disk.old) }

        // No image of a journal is foreign.
        ensures never_foreign { (commits : List Commit) (pending : Option Commit) → IsSome (D.seen disk.old)
            → ((c : List ℕ) → D.images disk.old c → IsJournal commit_of commits pending c)
            → IfForeign result (λ at. ⊥) }

        ensures failed { IsErrOf result RecoverFault.Disk → HasRisen (D.faults disk.old) (D.faults disk.new) }
        ensures no_fault { OnOk result (D.faults disk.new ≡ D.faults disk.old) }
        ensures never_falls { D.faults disk.old ≤ D.faults disk.new }
        ensures told { IsSome (D.seen disk.old) → IsSome (D.seen disk.new) }
    {
        let file = match read_synced(alloc, disk) {
            Ok(file) => file,
            Err(fault) => return Err(fault),
        };
        let found = match found_in(alloc, file) {
            Ok(found) => found,
            Err(reason) => return Err(reason),
        };
        close_gate(disk, found.gate, found.is_closed)?;
        Ok(found.store)
    }

    /// Runs a transaction on the commits so far. If it passes, its record is added to the journal: with a closed gate
    /// of its own after the gate, which is opened once the record is synced. At `Committed` that is synced too.
    pub fn commit<D: Disk>(
        &mut self,
        alloc: Global,
        disk: &mut D,
        ops: &[Op],
    ) -> Result<Kept, KeepFault>
        requires few { length ops.now ≤ most_ops }
        requires version { AllByRecursion (IsOfVersion (has_join ops.now)) ops.now }
        requires at_rest { self.old.is_halted ≡ false
            → IsAtRest commit_of self.old.commits self.old.place (D.seen disk.old) (D.images disk.old) }

        ensures committed { IfCommitted result (λ stamp number answers.
            IsCommitted self.old self.new ops.now stamp number answers) }
        ensures refused { IfTurnedDown result (λ stamp op reason at.
            IsTurnedDown self.old self.new ops.now stamp op reason at) }
        ensures stamped { OnOk result (IsStamped self.old self.new) }
        ensures at_rest { OnOk result
            (IsAtRest commit_of self.new.commits self.new.place (D.seen disk.new) (D.images disk.new)) }

        // Of a commit the disk reads as its record, in the place of the closed gate, and as before elsewhere.
        ensures bytes { IfCommitted result (λ stamp number answers. ReadsWithRecord (D.seen disk.old) (D.seen disk.new)
            self.old.place (next_commit self.old ops.now)) }

        // A crash at any moment of the call leaves the commits from before it, with the new one or without.
        ensures any_moment { self.old.is_halted ≡ false → IsSome (D.seen disk.old)
            → LeavesOnly D.moment D.images_since disk.old disk.new
            (IsJournal commit_of self.old.commits (Some (next_commit self.old ops.now))) }

        // The law of kept commits: of the commits recovered at the start and the transactions since, each image has the
        // former and then the first ones of the latter, in order. It goes on with this transaction as the last one.
        ensures law { (start : D) (recovered since : List Commit) → self.old.is_halted ≡ false
            → IsSome (D.seen disk.old) → self.old.commits ≡ recovered ++ since
            → LeavesOnly D.moment D.images_since start disk.old (HasPrefix commit_of recovered since)
            → LeavesOnly D.moment D.images_since start disk.new
            (HasPrefix commit_of recovered (since ++ next_commit self.old ops.now ∷ [])) }

        // The disk fails only in a transaction that passes; from then on each call answers `Halted`.
        ensures failed { IsErrOf result KeepFault.Disk → HasRisen (D.faults disk.old) (D.faults disk.new) }
        ensures passes { IsErrOf result KeepFault.Disk
            → IsTrue (is_ok (transaction ops.now (graph_of self.old.commits))) }
        ensures halts { IsErrOf result KeepFault.Disk → self.new ≡ record self.old { is_halted = true } }
        ensures goes_on { OnOk result (self.new.is_halted ≡ false) }
        ensures halted { IsErrOf result KeepFault.Halted ↔ (self.old.is_halted ≡ true) }

        ensures no_memory { IsErrOf result KeepFault.Memory → self.new ≡ self.old }
        ensures no_call { IsErrOf result KeepFault.Halted → self.new ≡ self.old }
        ensures unwritten { IfUnwritten result (disk.new ≡ disk.old) }
        ensures no_fault { OnOk result (D.faults disk.new ≡ D.faults disk.old) }
        ensures never_falls { D.faults disk.old ≤ D.faults disk.new }
        ensures told { IsSome (D.seen disk.old) → IsSome (D.seen disk.new) }
    {
        self.attempt(alloc, disk, ops)
    }

    // Does what `commit` promises.
    fn attempt<D: Disk>(
        &mut self,
        alloc: Global,
        disk: &mut D,
        ops: &[Op],
    ) -> Result<Kept, KeepFault>
        requires few { length ops.now ≤ most_ops }
        requires version { AllByRecursion (IsOfVersion (has_join ops.now)) ops.now }
        requires at_rest { self.old.is_halted ≡ false
            → IsAtRest commit_of self.old.commits self.old.place (D.seen disk.old) (D.images disk.old) }
        ensures { CommitEnds D.seen D.images D.moment D.images_since D.faults disk.old disk.new self.old self.new
            ops.now result }
    {
        if self.is_halted {
            return Err(KeepFault::Halted);
        }
        if self.count == u64::MAX {
            return Err(KeepFault::Memory);
        }
        clocks_keep_the_laws();
        payloads_say_commits();
        let stamp = kept_stamp(self.epoch, self.count + 1);
        let gate = self.journal.len() - 1;
        match judge(alloc, &mut self.journal, &mut self.graph, &stamp, ops) {
            Ok(answers) => match keep_record(disk, &mut self.journal, gate) {
                Ok(()) => {
                    self.number += 1;
                    self.count += 1;
                    Ok(Kept::Committed {
                        stamp,
                        number: self.number,
                        answers,
                    })
                }
                Err(_) => {
                    self.is_halted = true;
                    Err(KeepFault::Disk)
                }
            },
            Err(TxFault::Refused { op, reason }) => {
                self.count += 1;
                Ok(Kept::Refused {
                    stamp,
                    op,
                    reason,
                    at: self.number,
                })
            }
            Err(TxFault::Memory) => Err(KeepFault::Memory),
        }
    }
}

// What a recovery found in a file.
#[derive(Drop)]
struct Found {
    // The store of the journal, with a closed gate after the last whole record.
    store: KeptStore,
    // The place of that gate.
    gate: u64,
    // Whether the file has a closed gate there.
    is_closed: bool,
}

// The store of the journal that a file is, if it isn't foreign.
fn found_in(alloc: Global, file: Vec<u8>) -> Result<Found, RecoverFault>
    ensures commits { IfOk result (λ found. found.store.commits ≡ file_commits commit_of file.items) }
    ensures place { IfOk result (λ found. found.store.place ≡ found.gate) }
    ensures gate { IfOk result (λ found. found.gate ≡ gate_of commit_of file.items) }
    ensures epoch { IfOk result (λ found. found.store.epoch ≡ length found.store.commits + 1) }
    ensures fresh { IfOk result (λ found. (found.store.count ≡ 0) × (found.store.is_halted ≡ false)) }
    ensures closed { IfOk result (λ found. IsTrue found.is_closed ↔ (get_or file.items found.gate 1 ≡ 0)) }
    ensures foreign { IfForeign result (λ at. IsForeign commit_of file.items × (at ≡ gate_of commit_of file.items)) }
    ensures not_foreign { OnOk result (¬ IsForeign commit_of file.items) }
    ensures no_disk { IsErrOf result RecoverFault.Disk → ⊥ }
{
    clocks_keep_the_laws();
    let mut journal = file;
    let walked = walk(alloc, journal.as_slice())?;
    let gate = walked.gate;
    if journal.len() > 1 && is_open(journal.as_slice(), gate) {
        return Err(RecoverFault::Foreign { at: gate as u64 });
    }
    let is_closed = is_closed(journal.as_slice(), gate);
    journal.truncate(gate);
    journal.extend_from_slice(&[0])?;
    let store = KeptStore {
        journal,
        number: walked.number,
        epoch: walked.number + 1,
        count: 0,
        graph: walked.graph,
        is_halted: false,
    };
    Ok(Found {
        store,
        gate: gate as u64,
        is_closed,
    })
}

// Whether there is a gate byte 1.
fn is_open(file: &[u8], gate: usize) -> bool
    ensures { IsTrue result ↔ (gate < length file.now) × (get_or file.now gate 0 ≡ 1) }
{
    gate < file.len() && file[gate] == 1
}

// Whether there is a gate byte 0.
fn is_closed(file: &[u8], gate: usize) -> bool
    ensures { IsTrue result ↔ (get_or file.now gate 1 ≡ 0) }
{
    gate < file.len() && file[gate] == 0
}
