//! The top call.
ghost use Rattle.std.specs.Prelude.{◌≡◌, ◌≢◌, ◌⊎◌, ◌↔◌, ◌+◌, ℕ, List, [], map, string_bytes, None, Some, IfOk, IfErr, IfSome, IsErrOf};
ghost use Rattle.weave_io.specs.Counts.{HasRisen};
ghost use Rattle.weave_data.specs.Limits.{most_bytes};
ghost use Rattle.weave_io.specs.Told.{Appends, AppendsPrefix, IsReadWhole, KeepsWritten, TakesAtMost, Tells, Writes, WritesPrefix};
ghost use Rattle.explain_top.specs.CallEnds.{EndsCommand, EndsExplaining, LeavesStreams};
ghost use Rattle.explain_top.specs.Commands.{command_asked};
ghost use Rattle.explain_top.specs.Explained.{BeginsAsCheck, BeginsAsRefusedRun, CanEnd, Explains, IsAnswered, IsExplanation};
ghost use Rattle.weaver_top.specs.Refusals.{CanBeTaken, check_input, script_input};

use crate::answering::{Answer, answer_to, too_long};
use crate::command::{Command, command_of};
use explain_picture::Window;
use std::alloc::Global;
use weave_io::{ReadFault, Sink, Source, read_all, write_all};
use weaver_top::Status;

/// Explains what the source gives, as the command line asks: without a word what `check` says of a script and a report,
/// and why; with `script` why a script alone is refused; with `picture` the report is drawn.
///
/// The status is that of `check`, or `Done` once a report is drawn. It has no runtime, so it can't wait, and always
/// returns.
pub fn explain<S: Source, K: Sink>(
    alloc: Global,
    words: &[String],
    source: &mut S,
    sink: &mut K,
) -> Status
    // Without a word the first line is that of `check`, and so is the status.
    ensures first_line { command_asked (map string_bytes words.now) ≡ Some Command.Check → IsAnswered result
        → Writes (BeginsAsCheck result) (S.left source.old) (K.written sink.old) (K.written sink.new) }

    // A script alone is valid, or the first line is that of `run` for it.
    ensures script_is_read { command_asked (map string_bytes words.now) ≡ Some Command.Script → result ≡ Status.Done
        → IfSome (S.left source.old) (CanBeTaken script_input) }
    ensures script_is_refused { command_asked (map string_bytes words.now) ≡ Some Command.Script
        → result ≡ Status.Refused
        → Writes BeginsAsRefusedRun (S.left source.old) (K.written sink.old) (K.written sink.new) }

    // What is drawn is an input that `check` takes; or the first line is that of `check` for it.
    ensures drawn { (window : Window) → command_asked (map string_bytes words.now) ≡ Some (Command.Picture window)
        → result ≡ Status.Done → IfSome (S.left source.old) (CanBeTaken check_input) }
    ensures not_drawn { (window : Window) → command_asked (map string_bytes words.now) ≡ Some (Command.Picture window)
        → result ≡ Status.Refused
        → Writes (BeginsAsCheck Status.Refused) (S.left source.old) (K.written sink.old) (K.written sink.new) }

    // When each other status comes.
    ensures words { (result ≡ Status.Words) ↔ (command_asked (map string_bytes words.now) ≡ None) }
    ensures not_right { result ≡ Status.NotRight → command_asked (map string_bytes words.now) ≡ Some Command.Check }
    ensures read { result ≡ Status.Read → HasRisen (S.faults source.old) (S.faults source.new) }
    ensures write { result ≡ Status.Write
        → HasRisen (K.faults sink.old) (K.faults sink.new) ⊎ HasRisen (K.stalls sink.old) (K.stalls sink.new) }
    ensures prefix { (command : Command) → command_asked (map string_bytes words.now) ≡ Some command
        → result ≡ Status.Write
        → WritesPrefix (IsExplanation command) (S.left source.old) (K.written sink.old) (K.written sink.new) }
    ensures no_others { (result ≢ Status.Disk) × (result ≢ Status.Foreign) }

    // Reading comes before writing, and a stall ends the writing.
    ensures all_is_read { (result ≡ Status.Done) ⊎ (result ≡ Status.NotRight) → Tells (S.left source.new) [] }
    ensures read_first { (result ≡ Status.Refused) ⊎ (result ≡ Status.Write)
        → IsReadWhole (S.left source.old) (S.left source.new) }
    ensures without_stall { (result ≡ Status.Done) ⊎ (result ≡ Status.NotRight) ⊎ (result ≡ Status.Refused)
        → K.stalls sink.new ≡ K.stalls sink.old }

    // When nothing is written, and nothing read.
    ensures nothing_written { (result ≡ Status.Words) ⊎ (result ≡ Status.Read) ⊎ (result ≡ Status.Memory)
        → K.written sink.new ≡ K.written sink.old }
    ensures nothing_read { result ≡ Status.Words → source.new ≡ source.old }
    ensures read_in_time { result ≡ Status.Read → TakesAtMost (S.left source.old) (S.left source.new) most_bytes }
    ensures rest { TakesAtMost (S.left source.old) (S.left source.new) (most_bytes + 1) }
    ensures written_stays { KeepsWritten (K.written sink.old) (K.written sink.new) }
{
    explain_asked(alloc, words, source, sink)
}

// What `explain` does. All that it promises follows from how the call ends.
fn explain_asked<S: Source, K: Sink>(
    alloc: Global,
    words: &[String],
    source: &mut S,
    sink: &mut K,
) -> Status
    ensures ends { EndsExplaining (command_asked (map string_bytes words.now)) result (S.left source.old)
        (K.written sink.old) (K.written sink.new) (source.new ≡ source.old)
        (HasRisen (S.faults source.old) (S.faults source.new))
        (HasRisen (K.faults sink.old) (K.faults sink.new) ⊎ HasRisen (K.stalls sink.old) (K.stalls sink.new)) }
    ensures leaves { LeavesStreams result (S.left source.old) (S.left source.new) (K.written sink.old)
        (K.written sink.new) (K.stalls sink.new ≡ K.stalls sink.old) }
{
    match command_of(words) {
        Some(command) => explain_by(alloc, command, source, sink),
        None => Status::Words,
    }
}

// Does a command.
fn explain_by<S: Source, K: Sink>(
    alloc: Global,
    command: Command,
    source: &mut S,
    sink: &mut K,
) -> Status
    ensures ends { EndsCommand command result (S.left source.old) (K.written sink.old) (K.written sink.new)
        (HasRisen (S.faults source.old) (S.faults source.new))
        (HasRisen (K.faults sink.old) (K.faults sink.new) ⊎ HasRisen (K.stalls sink.old) (K.stalls sink.new)) }
    ensures leaves { LeavesStreams result (S.left source.old) (S.left source.new) (K.written sink.old)
        (K.written sink.new) (K.stalls sink.new ≡ K.stalls sink.old) }
{
    match prepared(alloc, command, source) {
        Ok(answer) => write_answer(sink, &answer),
        Err(status) => status,
    }
}

// What is to be written, or the status with which nothing is.
fn prepared<S: Source>(alloc: Global, command: Command, source: &mut S) -> Result<Answer, Status>
    ensures explains { IfOk result (λ answer. IfSome (S.left source.old)
        (λ input. Explains command answer.status input answer.text.items)) }
    ensures ends { IfOk result (λ answer. CanEnd command answer.status) }
    ensures unread { IfErr result (λ status.
        ((status ≡ Status.Read) × HasRisen (S.faults source.old) (S.faults source.new)) ⊎ (status ≡ Status.Memory)) }
    ensures end { IfOk result (λ answer. (answer.status ≡ Status.Done) ⊎ (answer.status ≡ Status.NotRight)
        → Tells (S.left source.new) []) }
    ensures whole { IfOk result (λ answer. IsReadWhole (S.left source.old) (S.left source.new)) }
    ensures read_in_time { IsErrOf result Status.Read
        → TakesAtMost (S.left source.old) (S.left source.new) most_bytes }
    ensures rest { TakesAtMost (S.left source.old) (S.left source.new) (most_bytes + 1) }
{
    match read_all(alloc, source) {
        Ok(input) => match answer_to(alloc, command, &input) {
            Ok(answer) => Ok(answer),
            Err(_) => Err(Status::Memory),
        },
        Err(ReadFault::TooLong) => match too_long(alloc) {
            Ok(answer) => Ok(answer),
            Err(_) => Err(Status::Memory),
        },
        Err(ReadFault::Read) => Err(Status::Read),
        Err(ReadFault::Memory) => Err(Status::Memory),
    }
}

// Writes an answer's text.
fn write_answer<K: Sink>(sink: &mut K, answer: &Answer) -> Status
    ensures delivered { ((result ≡ answer.now.status)
        × Appends (K.written sink.old) (K.written sink.new) answer.now.text.items)
        ⊎ ((result ≡ Status.Write)
        × (HasRisen (K.faults sink.old) (K.faults sink.new) ⊎ HasRisen (K.stalls sink.old) (K.stalls sink.new))
        × AppendsPrefix (K.written sink.old) (K.written sink.new) answer.now.text.items) }
    ensures without_stall { result ≢ Status.Write → K.stalls sink.new ≡ K.stalls sink.old }
{
    match write_all(sink, answer.text.as_slice()) {
        Ok(()) => answer.status,
        Err(_) => Status::Write,
    }
}
