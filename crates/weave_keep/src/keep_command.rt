//! The command `keep`.
ghost use Rattle.std.specs.Prelude.{◌≡◌, ◌⊎◌, ◌≢◌, ◌+◌, ◌++◌, List, [], ℕ, Option, IfSome, IsSome};
ghost use Rattle.weave_data.specs.Limits.{most_bytes};
ghost use Rattle.weave_io.specs.Counts.{HasRisen};
ghost use Rattle.weave_io.specs.Told.{IsReadWhole, KeepsWritten, TakesAtMost, Tells, Writes, WritesPrefix};
ghost use Rattle.store_journal.specs.Commits.{commit_of};
ghost use Rattle.store_journal.specs.Disk.{ComesFrom, LeavesOnly};
ghost use Rattle.store_journal.specs.Journal.{IsForeign};
ghost use Rattle.store_journal.specs.Standing.{IsJournal};
ghost use Rattle.store_journal.specs.declared.kept_commit.Commit.{Commit};
ghost use Rattle.weave_keep.specs.KeepEnds.{CanBeKept, GoesOnByKeep, IsLeftByKeep, KeepsCommits, ReadsCommits, TellsKeepRefusal, TellsKept, added_by};
ghost use Rattle.weave_keep.specs.Prepared.{IsDelivered, IsKeepEnd, IsWritten};

use crate::answering::{Answer, Unanswered, prepare_answer};
use std::alloc::Global;
use store_journal::{Disk, images_have_the_commits};
use weave_io::{Sink, Source, write_all};
use weave_script::texts_are_of_one_script;
use weaver_top::Status;

/// Reads a script of transactions, keeps those that pass on the commits that the disk has, and writes the report.
pub fn keep<S: Source, K: Sink, D: Disk>(
    alloc: Global,
    source: &mut S,
    sink: &mut K,
    disk: &mut D,
) -> Status
    // What is done: the report is written, and its commits are on the disk after those that it had.
    ensures kept { result ≡ Status.Done → (recovered : List Commit) × ReadsCommits (D.seen disk.old) recovered
        × Writes (TellsKept recovered) (S.left source.old) (K.written sink.old) (K.written sink.new)
        × IfSome (S.left source.old) (λ input.
        KeepsCommits (D.seen disk.new) (D.images disk.new) (recovered ++ added_by input recovered)) }

    // A crash at any moment leaves an image that comes from one that it might have left before: the same if that is
    // foreign, and of a journal what it had, and then the first ones of the commits that the input adds.
    ensures any_moment { IsSome (D.seen disk.old) → LeavesOnly D.moment D.images_since disk.old disk.new
        (ComesFrom (GoesOnByKeep (S.left source.old)) (D.images disk.old)) }

    // So it does if all images are of one journal.
    ensures from_a_journal { (commits : List Commit) (pending : Option Commit) → IsSome (D.seen disk.old)
        → ((c : List ℕ) → D.images disk.old c → IsJournal commit_of commits pending c)
        → LeavesOnly D.moment D.images_since disk.old disk.new (IsLeftByKeep (S.left source.old) commits pending) }

    // When each other status comes. Reading and parsing come before the disk, and writing after it.
    ensures read { result ≡ Status.Read → HasRisen (S.faults source.old) (S.faults source.new) }
    ensures refused { result ≡ Status.Refused
        → Writes TellsKeepRefusal (S.left source.old) (K.written sink.old) (K.written sink.new) }
    ensures disk { result ≡ Status.Disk → HasRisen (D.faults disk.old) (D.faults disk.new) }
    ensures foreign { result ≡ Status.Foreign → IfSome (D.seen disk.old) (IsForeign commit_of) }
    ensures can_be_kept { (result ≡ Status.Disk) ⊎ (result ≡ Status.Foreign)
        → IfSome (S.left source.old) CanBeKept }
    ensures write { result ≡ Status.Write →
        HasRisen (K.faults sink.old) (K.faults sink.new) ⊎ HasRisen (K.stalls sink.old) (K.stalls sink.new) }
    ensures no_others { (result ≢ Status.Words) × (result ≢ Status.NotRight) }

    // On a journal `Foreign` never comes.
    ensures never_foreign { (commits : List Commit) (pending : Option Commit) → IsSome (D.seen disk.old)
        → ((c : List ℕ) → D.images disk.old c → IsJournal commit_of commits pending c) → result ≢ Status.Foreign }

    // If the writing failed, the commits are on the disk, or the input is refused.
    ensures cut_short { result ≡ Status.Write → ((recovered : List Commit) × ReadsCommits (D.seen disk.old) recovered
        × WritesPrefix (TellsKept recovered) (S.left source.old) (K.written sink.old) (K.written sink.new)
        × IfSome (S.left source.old) (λ input.
        KeepsCommits (D.seen disk.new) (D.images disk.new) (recovered ++ added_by input recovered)))
        ⊎ ((disk.new ≡ disk.old)
        × WritesPrefix TellsKeepRefusal (S.left source.old) (K.written sink.old) (K.written sink.new)) }

    // What is not written, and not touched.
    ensures nothing_written { (result ≡ Status.Read) ⊎ (result ≡ Status.Memory) ⊎ (result ≡ Status.Disk)
        ⊎ (result ≡ Status.Foreign) → K.written sink.new ≡ K.written sink.old }
    ensures untouched { (result ≡ Status.Read) ⊎ (result ≡ Status.Refused) → disk.new ≡ disk.old }
    ensures unwritten { result ≡ Status.Foreign → D.seen disk.new ≡ D.seen disk.old }
    ensures only_to_keep { IfSome (S.left source.old) (λ input. ¬ CanBeKept input → disk.new ≡ disk.old) }
    ensures written_stays { KeepsWritten (K.written sink.old) (K.written sink.new) }

    // What is read, and that a stall ends the writing.
    ensures all_is_read { result ≡ Status.Done → Tells (S.left source.new) [] }
    ensures read_first { (result ≡ Status.Refused) ⊎ (result ≡ Status.Write) ⊎ (result ≡ Status.Disk)
        ⊎ (result ≡ Status.Foreign) → IsReadWhole (S.left source.old) (S.left source.new) }
    ensures read_in_time { result ≡ Status.Read → TakesAtMost (S.left source.old) (S.left source.new) most_bytes }
    ensures rest { TakesAtMost (S.left source.old) (S.left source.new) (most_bytes + 1) }
    ensures without_stall { (result ≡ Status.Done) ⊎ (result ≡ Status.Refused)
        → K.stalls sink.new ≡ K.stalls sink.old }

    // A script that can be kept is kept, if nothing fails and memory suffices, unless the file is no journal.
    ensures all_kept { ¬ HasRisen (S.faults source.old) (S.faults source.new)
        → ¬ HasRisen (K.faults sink.old) (K.faults sink.new)
        → ¬ HasRisen (K.stalls sink.old) (K.stalls sink.new)
        → ¬ HasRisen (D.faults disk.old) (D.faults disk.new)
        → IfSome (S.left source.old) (λ input. CanBeKept input → IfSome (D.seen disk.old) (λ file.
        ¬ IsForeign commit_of file → (result ≡ Status.Done) ⊎ (result ≡ Status.Memory))) }
{
    images_have_the_commits();
    texts_are_of_one_script();
    keep_input(alloc, source, sink, disk)
}

// What `keep` does. All that it promises follows from how the call ends.
fn keep_input<S: Source, K: Sink, D: Disk>(
    alloc: Global,
    source: &mut S,
    sink: &mut K,
    disk: &mut D,
) -> Status
    ensures ends { IsKeepEnd (record {
      seen = D.seen disk.old;
      now = D.seen disk.new;
      images = D.images disk.new;
      Failed = HasRisen (D.faults disk.old) (D.faults disk.new);
      Same = disk.new ≡ disk.old;
    }) result
        (S.left source.old) (S.left source.new) (K.written sink.old) (K.written sink.new)
        (HasRisen (S.faults source.old) (S.faults source.new))
        (HasRisen (K.faults sink.old) (K.faults sink.new) ⊎ HasRisen (K.stalls sink.old) (K.stalls sink.new))
        (K.stalls sink.new ≡ K.stalls sink.old) }
    ensures any_moment { IsSome (D.seen disk.old) → LeavesOnly D.moment D.images_since disk.old disk.new
        (ComesFrom (GoesOnByKeep (S.left source.old)) (D.images disk.old)) }
{
    let prepared = prepare_answer(alloc, source, disk);
    deliver(sink, prepared)
}

// Writes the text of an answer. If there is none, nothing is written.
fn deliver<K: Sink>(sink: &mut K, prepared: Result<Answer, Unanswered>) -> Status
    ensures { IsDelivered prepared result (K.written sink.old) (K.written sink.new)
        (HasRisen (K.faults sink.old) (K.faults sink.new) ⊎ HasRisen (K.stalls sink.old) (K.stalls sink.new))
        (K.stalls sink.new ≡ K.stalls sink.old) }
{
    match prepared {
        Ok(answer) => write_answer(sink, &answer),
        Err(why) => why.status(),
    }
}

// Writes an answer's text.
fn write_answer<K: Sink>(sink: &mut K, answer: &Answer) -> Status
    ensures written { IsWritten answer.now result (K.written sink.old) (K.written sink.new)
        (HasRisen (K.faults sink.old) (K.faults sink.new) ⊎ HasRisen (K.stalls sink.old) (K.stalls sink.new)) }
    ensures without_stall { result ≢ Status.Write → K.stalls sink.new ≡ K.stalls sink.old }
{
    match write_all(sink, answer.text.as_slice()) {
        Ok(()) => answer.status,
        Err(_) => Status::Write,
    }
}
