//! Reads the input and finds out what to write.
ghost use Rattle.std.specs.Prelude.{◌≡◌, IsTrue};
ghost use Rattle.weave_io.specs.Counts.{HasRisen};
ghost use Rattle.weaver_top.specs.CallEnds.{AnswersUnread, IsPrepared};
ghost use Rattle.weaver_top.specs.Commands.{IsSized, reads_input};

use crate::answer::{Answer, too_long};
use crate::command::{Command, reads_input};
use crate::which_answer::answer_to;
use std::alloc::Global;
use weave_io::{ReadFault, Source, read_all};

/// Why there is nothing to write.
pub(crate) enum PrepareError {
    Read,
    Memory,
}

/// Reads the input, if the command has one, and finds out what is to be written.
pub(crate) fn prepare<S: Source>(
    alloc: Global,
    command: Command,
    source: &mut S,
) -> Result<Answer, PrepareError>
    requires { IsSized command }
    ensures { IsPrepared command result (S.left source.old) (S.left source.new)
        (HasRisen (S.faults source.old) (S.faults source.new)) (source.new ≡ source.old) }
{
    if reads_input(command) {
        return prepare_from_input(alloc, command, source);
    }
    match answer_to(alloc, command, &[]) {
        Ok(answer) => Ok(answer),
        Err(_) => Err(PrepareError::Memory),
    }
}

// Reads the input of a command that has one, and finds out what is to be written.
fn prepare_from_input<S: Source>(
    alloc: Global,
    command: Command,
    source: &mut S,
) -> Result<Answer, PrepareError>
    requires sized { IsSized command }
    requires reads { IsTrue (reads_input command) }
    ensures { IsPrepared command result (S.left source.old) (S.left source.new)
        (HasRisen (S.faults source.old) (S.faults source.new)) (source.new ≡ source.old) }
{
    match read_all(alloc, source) {
        Ok(input) => match answer_to(alloc, command, &input) {
            Ok(answer) => Ok(answer),
            Err(_) => Err(PrepareError::Memory),
        },
        Err(fault) => answer_unread(alloc, fault),
    }
}

/// What is to be written if the input was not read.
pub(crate) fn answer_unread(alloc: Global, fault: ReadFault) -> Result<Answer, PrepareError>
    ensures { AnswersUnread fault result }
{
    match fault {
        ReadFault::TooLong => match too_long(alloc) {
            Ok(answer) => Ok(answer),
            Err(_) => Err(PrepareError::Memory),
        },
        ReadFault::Read => Err(PrepareError::Read),
        ReadFault::Memory => Err(PrepareError::Memory),
    }
}
