//! The top call.
ghost use Rattle.std.specs.Prelude.{◌≡◌, ◌≢◌, ◌⊎◌, ◌↔◌, ◌+◌, ◌++◌, ℕ, List, [], map, string_bytes, true, false, IsTrue, codes, nat_eq, Option, None, IfSome, IsSome};
ghost use Rattle.weave_io.specs.Counts.{HasRisen};
ghost use Rattle.weave_io.specs.Told.{IsReadWhole, KeepsWritten, TakesAtMost, Tells, Writes, WritesPrefix};
ghost use Rattle.weaver_top.specs.Acceptance.{IsAcceptedByCheck};
ghost use Rattle.weaver_top.specs.Answers.{TellsAnswer};
ghost use Rattle.weaver_top.specs.ByWorkers.{TellsByWorkers};
ghost use Rattle.weaver_top.specs.Commands.{AreWordsOf, command_of, reads_input};
ghost use Rattle.weaver_top.specs.Headlines.{TellsRightReport, TellsTrace, TellsYes};
ghost use Rattle.weaver_top.specs.Loads.{WritesLoad, WritesLoadPrefix};
ghost use Rattle.weaver_top.specs.Refusals.{CanBeTaken, TellsRefusal, check_input, script_input};
ghost use Rattle.weaver_top.specs.RunLogs.{TellsByLogs};
ghost use Rattle.weaver_top.specs.VerdictLines.{TellsNo};
ghost use Rattle.weave_data.specs.Limits.{most_bytes};
ghost use Rattle.store_journal.specs.Commits.{commit_of};
ghost use Rattle.store_journal.specs.Disk.{ComesFrom, LeavesOnly};
ghost use Rattle.store_journal.specs.Journal.{IsForeign};
ghost use Rattle.store_journal.specs.Standing.{IsJournal};
ghost use Rattle.store_journal.specs.declared.kept_commit.Commit.{Commit};
ghost use Rattle.weave_keep.specs.KeepEnds.{CanBeKept, GoesOnByKeep, IsLeftByKeep, KeepsCommits, ReadsCommits, TellsKeepRefusal, TellsKept, added_by};
ghost use Rattle.weave_keep.specs.KeepWords.{are_keep_words};
ghost use Rattle.std.specs.Cmp.Lexicographic.{pointwise};

use crate::keep_command::keep;
use std::alloc::Global;
use std::sync::Wait;
use std::thread::Threads;
use store_journal::Disk;
use weave_io::{Sink, Source};
use weaver_top::{Command, Pace, Status, weave};

/// Runs the command of the command line. The words `keep` and one more keep a script's transactions on the disk, as
/// `keep` does. All other words are those of `weave`, and the disk is as before.
pub fn weave_kept<R: Threads + Wait + Sync, S: Source, K: Sink, P: Pace, D: Disk>(
    rt: &R,
    alloc: Global,
    words: &[String],
    source: &mut S,
    sink: &mut K,
    pace: &P,
    disk: &mut D,
) -> Status
    // What `keep` does, with the words `keep` and one more.
    // What is done: the report is written, and its commits are on the disk after those that it had.
    ensures keep_kept { are_keep_words (map string_bytes words.now) ≡ true
        → result ≡ Status.Done → (recovered : List Commit) × ReadsCommits (D.seen disk.old) recovered
        × Writes (TellsKept recovered) (S.left source.old) (K.written sink.old) (K.written sink.new)
        × IfSome (S.left source.old) (λ input.
        KeepsCommits (D.seen disk.new) (D.images disk.new) (recovered ++ added_by input recovered)) }

    // A crash at any moment leaves an image that comes from one that it might have left before: the same if that is
    // foreign, and of a journal what it had, and then the first ones of the commits that the input adds.
    ensures keep_any_moment { are_keep_words (map string_bytes words.now) ≡ true
        → IsSome (D.seen disk.old) → LeavesOnly D.moment D.images_since disk.old disk.new
        (ComesFrom (GoesOnByKeep (S.left source.old)) (D.images disk.old)) }

    // So it does if all images are of one journal.
    ensures keep_from_a_journal { are_keep_words (map string_bytes words.now) ≡ true
        → (commits : List Commit) (pending : Option Commit) → IsSome (D.seen disk.old)
        → ((c : List ℕ) → D.images disk.old c → IsJournal commit_of commits pending c)
        → LeavesOnly D.moment D.images_since disk.old disk.new (IsLeftByKeep (S.left source.old) commits pending) }

    // When each other status comes. Reading and parsing come before the disk, and writing after it.
    ensures keep_refused { are_keep_words (map string_bytes words.now) ≡ true
        → result ≡ Status.Refused
        → Writes TellsKeepRefusal (S.left source.old) (K.written sink.old) (K.written sink.new) }
    ensures keep_disk { are_keep_words (map string_bytes words.now) ≡ true
        → result ≡ Status.Disk → HasRisen (D.faults disk.old) (D.faults disk.new) }
    ensures keep_foreign { are_keep_words (map string_bytes words.now) ≡ true
        → result ≡ Status.Foreign → IfSome (D.seen disk.old) (IsForeign commit_of) }
    ensures keep_can_be_kept { are_keep_words (map string_bytes words.now) ≡ true
        → (result ≡ Status.Disk) ⊎ (result ≡ Status.Foreign)
        → IfSome (S.left source.old) CanBeKept }
    ensures keep_no_others { are_keep_words (map string_bytes words.now) ≡ true
        → (result ≢ Status.Words) × (result ≢ Status.NotRight) }

    // On a journal `Foreign` never comes.
    ensures keep_never_foreign { are_keep_words (map string_bytes words.now) ≡ true
        → (commits : List Commit) (pending : Option Commit) → IsSome (D.seen disk.old)
        → ((c : List ℕ) → D.images disk.old c → IsJournal commit_of commits pending c) → result ≢ Status.Foreign }

    // If the writing failed, the commits are on the disk, or the input is refused.
    ensures keep_cut_short { are_keep_words (map string_bytes words.now) ≡ true
        → result ≡ Status.Write → ((recovered : List Commit) × ReadsCommits (D.seen disk.old) recovered
        × WritesPrefix (TellsKept recovered) (S.left source.old) (K.written sink.old) (K.written sink.new)
        × IfSome (S.left source.old) (λ input.
        KeepsCommits (D.seen disk.new) (D.images disk.new) (recovered ++ added_by input recovered)))
        ⊎ ((disk.new ≡ disk.old)
        × WritesPrefix TellsKeepRefusal (S.left source.old) (K.written sink.old) (K.written sink.new)) }

    // What is not written, and not touched.
    ensures keep_nothing_written { are_keep_words (map string_bytes words.now) ≡ true
        → (result ≡ Status.Read) ⊎ (result ≡ Status.Memory) ⊎ (result ≡ Status.Disk)
        ⊎ (result ≡ Status.Foreign) → K.written sink.new ≡ K.written sink.old }
    ensures keep_untouched { are_keep_words (map string_bytes words.now) ≡ true
        → (result ≡ Status.Read) ⊎ (result ≡ Status.Refused) → disk.new ≡ disk.old }
    ensures keep_unwritten { are_keep_words (map string_bytes words.now) ≡ true
        → result ≡ Status.Foreign → D.seen disk.new ≡ D.seen disk.old }
    ensures keep_only_to_keep { are_keep_words (map string_bytes words.now) ≡ true
        → IfSome (S.left source.old) (λ input. ¬ CanBeKept input → disk.new ≡ disk.old) }

    // What is read, and that a stall ends the writing.
    ensures keep_all_is_read { are_keep_words (map string_bytes words.now) ≡ true
        → result ≡ Status.Done → Tells (S.left source.new) [] }
    ensures keep_read_first { are_keep_words (map string_bytes words.now) ≡ true
        → (result ≡ Status.Refused) ⊎ (result ≡ Status.Write) ⊎ (result ≡ Status.Disk)
        ⊎ (result ≡ Status.Foreign) → IsReadWhole (S.left source.old) (S.left source.new) }

    // A script that can be kept is kept, if nothing fails and memory suffices, unless the file is no journal.
    ensures keep_all_kept { are_keep_words (map string_bytes words.now) ≡ true
        → ¬ HasRisen (S.faults source.old) (S.faults source.new)
        → ¬ HasRisen (K.faults sink.old) (K.faults sink.new)
        → ¬ HasRisen (K.stalls sink.old) (K.stalls sink.new)
        → ¬ HasRisen (D.faults disk.old) (D.faults disk.new)
        → IfSome (S.left source.old) (λ input. CanBeKept input → IfSome (D.seen disk.old) (λ file.
        ¬ IsForeign commit_of file → (result ≡ Status.Done) ⊎ (result ≡ Status.Memory))) }

    // What the other commands do, as in `weave`. They leave the disk as it is.
    ensures untouched { are_keep_words (map string_bytes words.now) ≡ false → disk.new ≡ disk.old }

    // The headlines.
    ensures right_report { AreWordsOf (map string_bytes words.now) Command.Run → result ≡ Status.Done
        → Writes TellsRightReport (S.left source.old) (K.written sink.old) (K.written sink.new) }
    ensures traced { AreWordsOf (map string_bytes words.now) Command.Trace → result ≡ Status.Done
        → Writes TellsTrace (S.left source.old) (K.written sink.old) (K.written sink.new) }
    ensures yes { AreWordsOf (map string_bytes words.now) Command.Check → result ≡ Status.Done
        → Writes TellsYes (S.left source.old) (K.written sink.old) (K.written sink.new) }
    ensures no { result ≡ Status.NotRight
        → AreWordsOf (map string_bytes words.now) Command.Check
        × Writes TellsNo (S.left source.old) (K.written sink.old) (K.written sink.new) }
    ensures loaded { (seed size : ℕ) → AreWordsOf (map string_bytes words.now) (Command.Load seed size)
        → result ≡ Status.Done → WritesLoad seed size (K.written sink.old) (K.written sink.new) }
    ensures all_is_read { (command : Command) → AreWordsOf (map string_bytes words.now) command
        → IsTrue (reads_input command) → (result ≡ Status.Done) ⊎ (result ≡ Status.NotRight)
        → Tells (S.left source.new) [] }

    // What `run` does besides: its report is that of logs which are an account of the script, workers ran each phase by
    // these logs, and `check` accepts it.
    ensures by_logs { AreWordsOf (map string_bytes words.now) Command.Run → result ≡ Status.Done
        → Writes TellsByLogs (S.left source.old) (K.written sink.old) (K.written sink.new) }
    ensures by_workers { AreWordsOf (map string_bytes words.now) Command.Run → result ≡ Status.Done
        → Writes TellsByWorkers (S.left source.old) (K.written sink.old) (K.written sink.new) }
    ensures accepted_by_check { AreWordsOf (map string_bytes words.now) Command.Run → result ≡ Status.Done
        → Writes IsAcceptedByCheck (S.left source.old) (K.written sink.old) (K.written sink.new) }

    // What `trace` does besides: `check` accepts its report.
    ensures trace_accepted { AreWordsOf (map string_bytes words.now) Command.Trace → result ≡ Status.Done
        → Writes IsAcceptedByCheck (S.left source.old) (K.written sink.old) (K.written sink.new) }

    // When each other status comes.
    ensures words { (result ≡ Status.Words)
        ↔ (command_of (map string_bytes words.now) ≡ None) × (are_keep_words (map string_bytes words.now) ≡ false) }
    ensures read { result ≡ Status.Read → HasRisen (S.faults source.old) (S.faults source.new) }
    ensures refused { (command : Command) → AreWordsOf (map string_bytes words.now) command → result ≡ Status.Refused
        → Writes (TellsRefusal command) (S.left source.old) (K.written sink.old) (K.written sink.new) }
    ensures input_refused { (command : Command) → AreWordsOf (map string_bytes words.now) command
        → result ≡ Status.Refused → IsTrue (reads_input command) }
    ensures write { result ≡ Status.Write →
        HasRisen (K.faults sink.old) (K.faults sink.new) ⊎ HasRisen (K.stalls sink.old) (K.stalls sink.new) }
    ensures prefix { (command : Command) → AreWordsOf (map string_bytes words.now) command → result ≡ Status.Write
        → WritesPrefix (TellsAnswer command) (S.left source.old) (K.written sink.old) (K.written sink.new) }
    ensures load_prefix { (seed size : ℕ) → AreWordsOf (map string_bytes words.now) (Command.Load seed size)
        → result ≡ Status.Write → WritesLoadPrefix seed size (K.written sink.old) (K.written sink.new) }

    // The statuses of `keep` never come.
    ensures no_others { are_keep_words (map string_bytes words.now) ≡ false
        → (result ≢ Status.Disk) × (result ≢ Status.Foreign) }

    // Reading comes before writing, and a stall ends the writing.
    ensures read_first { (command : Command) → AreWordsOf (map string_bytes words.now) command
        → IsTrue (reads_input command) → (result ≡ Status.Refused) ⊎ (result ≡ Status.Write)
        → IsReadWhole (S.left source.old) (S.left source.new) }
    ensures without_stall { (result ≡ Status.Done) ⊎ (result ≡ Status.NotRight) ⊎ (result ≡ Status.Refused)
        → K.stalls sink.new ≡ K.stalls sink.old }

    // When nothing is written, and nothing read.
    ensures nothing_written { (result ≡ Status.Words) ⊎ (result ≡ Status.Read) ⊎ (result ≡ Status.Memory)
        → K.written sink.new ≡ K.written sink.old }
    ensures nothing_read { result ≡ Status.Words → source.new ≡ source.old }
    ensures load_reads_nothing { (seed size : ℕ) → AreWordsOf (map string_bytes words.now) (Command.Load seed size)
        → source.new ≡ source.old }
    ensures read_in_time { result ≡ Status.Read → TakesAtMost (S.left source.old) (S.left source.new) most_bytes }
    ensures rest { TakesAtMost (S.left source.old) (S.left source.new) (most_bytes + 1) }
    ensures written_stays { KeepsWritten (K.written sink.old) (K.written sink.new) }

    // An input that a command takes gets its answer, unless reading or writing fails, or memory runs out.
    ensures all_run { AreWordsOf (map string_bytes words.now) Command.Run
        → ¬ HasRisen (S.faults source.old) (S.faults source.new)
        → ¬ HasRisen (K.faults sink.old) (K.faults sink.new)
        → ¬ HasRisen (K.stalls sink.old) (K.stalls sink.new)
        → IfSome (S.left source.old) (λ input. CanBeTaken script_input input
        → (result ≡ Status.Done) ⊎ (result ≡ Status.Memory)) }
    ensures all_judged { AreWordsOf (map string_bytes words.now) Command.Check
        → ¬ HasRisen (S.faults source.old) (S.faults source.new)
        → ¬ HasRisen (K.faults sink.old) (K.faults sink.new)
        → ¬ HasRisen (K.stalls sink.old) (K.stalls sink.new)
        → IfSome (S.left source.old) (λ input. CanBeTaken check_input input
        → ((result ≡ Status.Done) ⊎ (result ≡ Status.NotRight)) ⊎ (result ≡ Status.Memory)) }
    ensures all_traced { AreWordsOf (map string_bytes words.now) Command.Trace
        → ¬ HasRisen (S.faults source.old) (S.faults source.new)
        → ¬ HasRisen (K.faults sink.old) (K.faults sink.new)
        → ¬ HasRisen (K.stalls sink.old) (K.stalls sink.new)
        → IfSome (S.left source.old) (λ input. CanBeTaken script_input input
        → (result ≡ Status.Done) ⊎ (result ≡ Status.Memory)) }

    // `load` refuses nothing: it gets its answer, unless writing fails, or memory runs out.
    ensures all_loaded { (seed size : ℕ) → AreWordsOf (map string_bytes words.now) (Command.Load seed size)
        → ¬ HasRisen (K.faults sink.old) (K.faults sink.new)
        → ¬ HasRisen (K.stalls sink.old) (K.stalls sink.new)
        → (result ≡ Status.Done) ⊎ (result ≡ Status.Memory) }
{
    if are_keep_words(words) {
        return keep(alloc, source, sink, disk);
    }
    weave(rt, alloc, words, source, sink, pace)
}

// Whether the words are `keep` and one more.
fn are_keep_words(words: &[String]) -> bool
    ensures { result ≡ are_keep_words (map string_bytes words.now) }
{
    match words {
        [word, _] => is_keep(word.as_str()),
        _ => false,
    }
}

fn is_keep(word: &str) -> bool
    ensures { result ≡ pointwise nat_eq word.now (codes "keep") }
{
    word == "keep"
}
