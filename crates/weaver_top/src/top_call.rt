//! The top call.
ghost use Rattle.std.specs.Prelude.{◌≡◌, ◌≢◌, ◌⊎◌, ◌↔◌, ◌+◌, ℕ, [], map, string_bytes, IsTrue, None, IfOk, IfSome};
ghost use Rattle.weave_io.specs.Counts.{HasRisen};
ghost use Rattle.weave_io.specs.Told.{IsReadWhole, KeepsWritten, Tells, TakesAtMost, Writes, WritesPrefix};
ghost use Rattle.weaver_top.specs.Acceptance.{IsAcceptedByCheck};
ghost use Rattle.weaver_top.specs.Answers.{TellsAnswer};
ghost use Rattle.weaver_top.specs.ByWorkers.{TellsByWorkers};
ghost use Rattle.weaver_top.specs.CallEnds.{IsCallEnd, IsPrepared};
ghost use Rattle.weaver_top.specs.Commands.{AreWordsOf, command_of, reads_input};
ghost use Rattle.weaver_top.specs.Headlines.{TellsRightReport, TellsTrace, TellsYes};
ghost use Rattle.weaver_top.specs.Loads.{WritesLoad, WritesLoadPrefix};
ghost use Rattle.weaver_top.specs.Refusals.{CanBeTaken, TellsRefusal, check_input, script_input};
ghost use Rattle.weaver_top.specs.RunLogs.{TellsByLogs};
ghost use Rattle.weaver_top.specs.VerdictLines.{TellsNo};
ghost use Rattle.weave_data.specs.Limits.{most_bytes};

use crate::answer::Answer;
use crate::command::{Command, command_of};
use crate::delivering::deliver;
use crate::execution::execute_words;
use crate::preparing::{PrepareError, answer_unread};
use crate::run_command::report_on_threads;
use crate::status::Status;
use std::alloc::Global;
use std::sync::Wait;
use std::thread::Threads;
use weave_io::{Sink, Source, read_all};
use weaver_workers::Pace;

/// Runs the command of the command line. `run` runs its script phase by phase: in each phase with requests there is a
/// thread for each session that has requests in it, for each gatekeeper and for each shard, and `pace` is called round
/// each turn of these. What they leave undone a drive ends after the phase, and then the shards drop old versions.
/// `run` may wait. Every other command is as in `execute`, without threads, and always returns.
pub fn weave<R: Threads + Wait + Sync, S: Source, K: Sink, P: Pace>(
    rt: &R,
    alloc: Global,
    words: &[String],
    source: &mut S,
    sink: &mut K,
    pace: &P,
) -> Status
    // The headlines.
    ensures right_report { AreWordsOf (map string_bytes words.now) Command.Run → result ≡ Status.Done
        → Writes TellsRightReport (S.left source.old) (K.written sink.old) (K.written sink.new) }
    ensures traced { AreWordsOf (map string_bytes words.now) Command.Trace → result ≡ Status.Done
        → Writes TellsTrace (S.left source.old) (K.written sink.old) (K.written sink.new) }
    ensures yes { AreWordsOf (map string_bytes words.now) Command.Check → result ≡ Status.Done
        → Writes TellsYes (S.left source.old) (K.written sink.old) (K.written sink.new) }
    ensures no { result ≡ Status.NotRight
        → AreWordsOf (map string_bytes words.now) Command.Check
        × Writes TellsNo (S.left source.old) (K.written sink.old) (K.written sink.new) }
    ensures loaded { (seed size : ℕ) → AreWordsOf (map string_bytes words.now) (Command.Load seed size)
        → result ≡ Status.Done → WritesLoad seed size (K.written sink.old) (K.written sink.new) }
    ensures all_is_read { (command : Command) → AreWordsOf (map string_bytes words.now) command
        → IsTrue (reads_input command) → (result ≡ Status.Done) ⊎ (result ≡ Status.NotRight)
        → Tells (S.left source.new) [] }

    // What `run` does besides: its report is that of logs which are an account of the script, workers ran each phase by
    // these logs, and `check` accepts it.
    ensures by_logs { AreWordsOf (map string_bytes words.now) Command.Run → result ≡ Status.Done
        → Writes TellsByLogs (S.left source.old) (K.written sink.old) (K.written sink.new) }
    ensures by_workers { AreWordsOf (map string_bytes words.now) Command.Run → result ≡ Status.Done
        → Writes TellsByWorkers (S.left source.old) (K.written sink.old) (K.written sink.new) }
    ensures accepted_by_check { AreWordsOf (map string_bytes words.now) Command.Run → result ≡ Status.Done
        → Writes IsAcceptedByCheck (S.left source.old) (K.written sink.old) (K.written sink.new) }

    // What `trace` does besides: `check` accepts its report.
    ensures trace_accepted { AreWordsOf (map string_bytes words.now) Command.Trace → result ≡ Status.Done
        → Writes IsAcceptedByCheck (S.left source.old) (K.written sink.old) (K.written sink.new) }

    // When each other status comes.
    ensures words { (result ≡ Status.Words) ↔ (command_of (map string_bytes words.now) ≡ None) }
    ensures read { result ≡ Status.Read → HasRisen (S.faults source.old) (S.faults source.new) }
    ensures refused { (command : Command) → AreWordsOf (map string_bytes words.now) command → result ≡ Status.Refused
        → Writes (TellsRefusal command) (S.left source.old) (K.written sink.old) (K.written sink.new) }
    ensures input_refused { (command : Command) → AreWordsOf (map string_bytes words.now) command
        → result ≡ Status.Refused → IsTrue (reads_input command) }
    ensures write { result ≡ Status.Write →
        HasRisen (K.faults sink.old) (K.faults sink.new) ⊎ HasRisen (K.stalls sink.old) (K.stalls sink.new) }
    ensures prefix { (command : Command) → AreWordsOf (map string_bytes words.now) command → result ≡ Status.Write
        → WritesPrefix (TellsAnswer command) (S.left source.old) (K.written sink.old) (K.written sink.new) }
    ensures load_prefix { (seed size : ℕ) → AreWordsOf (map string_bytes words.now) (Command.Load seed size)
        → result ≡ Status.Write → WritesLoadPrefix seed size (K.written sink.old) (K.written sink.new) }

    // The statuses of `keep` never come.
    ensures no_others { (result ≢ Status.Disk) × (result ≢ Status.Foreign) }

    // Reading comes before writing, and a stall ends the writing.
    ensures read_first { (command : Command) → AreWordsOf (map string_bytes words.now) command
        → IsTrue (reads_input command) → (result ≡ Status.Refused) ⊎ (result ≡ Status.Write)
        → IsReadWhole (S.left source.old) (S.left source.new) }
    ensures without_stall { (result ≡ Status.Done) ⊎ (result ≡ Status.NotRight) ⊎ (result ≡ Status.Refused)
        → K.stalls sink.new ≡ K.stalls sink.old }

    // When nothing is written, and nothing read.
    ensures nothing_written { (result ≡ Status.Words) ⊎ (result ≡ Status.Read) ⊎ (result ≡ Status.Memory)
        → K.written sink.new ≡ K.written sink.old }
    ensures nothing_read { result ≡ Status.Words → source.new ≡ source.old }
    ensures load_reads_nothing { (seed size : ℕ) → AreWordsOf (map string_bytes words.now) (Command.Load seed size)
        → source.new ≡ source.old }
    ensures read_in_time { result ≡ Status.Read → TakesAtMost (S.left source.old) (S.left source.new) most_bytes }
    ensures rest { TakesAtMost (S.left source.old) (S.left source.new) (most_bytes + 1) }
    ensures written_stays { KeepsWritten (K.written sink.old) (K.written sink.new) }

    // An input that a command takes gets its answer, unless reading or writing fails, or memory runs out.
    ensures all_run { AreWordsOf (map string_bytes words.now) Command.Run
        → ¬ HasRisen (S.faults source.old) (S.faults source.new)
        → ¬ HasRisen (K.faults sink.old) (K.faults sink.new)
        → ¬ HasRisen (K.stalls sink.old) (K.stalls sink.new)
        → IfSome (S.left source.old) (λ input. CanBeTaken script_input input
        → (result ≡ Status.Done) ⊎ (result ≡ Status.Memory)) }
    ensures all_judged { AreWordsOf (map string_bytes words.now) Command.Check
        → ¬ HasRisen (S.faults source.old) (S.faults source.new)
        → ¬ HasRisen (K.faults sink.old) (K.faults sink.new)
        → ¬ HasRisen (K.stalls sink.old) (K.stalls sink.new)
        → IfSome (S.left source.old) (λ input. CanBeTaken check_input input
        → ((result ≡ Status.Done) ⊎ (result ≡ Status.NotRight)) ⊎ (result ≡ Status.Memory)) }
    ensures all_traced { AreWordsOf (map string_bytes words.now) Command.Trace
        → ¬ HasRisen (S.faults source.old) (S.faults source.new)
        → ¬ HasRisen (K.faults sink.old) (K.faults sink.new)
        → ¬ HasRisen (K.stalls sink.old) (K.stalls sink.new)
        → IfSome (S.left source.old) (λ input. CanBeTaken script_input input
        → (result ≡ Status.Done) ⊎ (result ≡ Status.Memory)) }

    // `load` refuses nothing: it gets its answer, unless writing fails, or memory runs out.
    ensures all_loaded { (seed size : ℕ) → AreWordsOf (map string_bytes words.now) (Command.Load seed size)
        → ¬ HasRisen (K.faults sink.old) (K.faults sink.new)
        → ¬ HasRisen (K.stalls sink.old) (K.stalls sink.new)
        → (result ≡ Status.Done) ⊎ (result ≡ Status.Memory) }
{
    weave_words(rt, alloc, words, source, sink, pace)
}

// What `weave` does. All that it promises follows from how the call ends, and from what workers did if it is `run`.
fn weave_words<R: Threads + Wait + Sync, S: Source, K: Sink, P: Pace>(
    rt: &R,
    alloc: Global,
    words: &[String],
    source: &mut S,
    sink: &mut K,
    pace: &P,
) -> Status
    ensures ends { IsCallEnd (command_of (map string_bytes words.now)) result (S.left source.old) (S.left source.new)
        (K.written sink.old) (K.written sink.new) (HasRisen (S.faults source.old) (S.faults source.new))
        (source.new ≡ source.old) (HasRisen (K.faults sink.old) (K.faults sink.new))
        (HasRisen (K.stalls sink.old) (K.stalls sink.new)) (K.stalls sink.new ≡ K.stalls sink.old) }
    ensures workers { AreWordsOf (map string_bytes words.now) Command.Run → result ≡ Status.Done
        → Writes TellsByWorkers (S.left source.old) (K.written sink.old) (K.written sink.new) }
{
    let Some(Command::Run) = command_of(words) else {
        return execute_words(alloc, words, source, sink);
    };
    let prepared = prepare_run(rt, alloc, source, pace);
    deliver(sink, prepared)
}

// Reads a script, runs it by workers on threads, and finds out what is to be written.
fn prepare_run<R: Threads + Wait + Sync, S: Source, P: Pace>(
    rt: &R,
    alloc: Global,
    source: &mut S,
    pace: &P,
) -> Result<Answer, PrepareError>
    ensures prepared { IsPrepared Command.Run result (S.left source.old) (S.left source.new)
        (HasRisen (S.faults source.old) (S.faults source.new)) (source.new ≡ source.old) }
    ensures workers { IfOk result (λ answer. answer.status ≡ Status.Done
        → IfSome (S.left source.old) (λ input. TellsByWorkers input answer.text.items)) }
{
    match read_all(alloc, source) {
        Ok(input) => match report_on_threads(rt, alloc, &input, pace) {
            Ok(answer) => Ok(answer),
            Err(_) => Err(PrepareError::Memory),
        },
        Err(fault) => answer_unread(alloc, fault),
    }
}
