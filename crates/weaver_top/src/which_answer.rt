//! What each command answers to an input.
ghost use Rattle.std.specs.Prelude.{◌≤◌, length, IfOk};
ghost use Rattle.weaver_top.specs.Answers.{IsAnswerTo};
ghost use Rattle.weaver_top.specs.Commands.{IsSized};
ghost use Rattle.weave_script.specs.Limits.{IsShort};

use crate::answer::Answer;
use crate::check_command::verdict_on;
use crate::command::Command;
use crate::load_command::load_on;
use crate::run_command::report_on;
use crate::trace_command::trace_on;
use std::alloc::{AllocError, Global};

/// What the command answers to an input that was read whole. That of `load` plays no part.
pub(crate) fn answer_to(alloc: Global, command: Command, input: &[u8]) -> Result<Answer, AllocError>
    requires short { IsShort input.now }
    requires sized { IsSized command }
    ensures { IfOk result (IsAnswerTo command input.now) }
{
    match command {
        Command::Run => report_on(alloc, input),
        Command::Check => verdict_on(alloc, input),
        Command::Trace => trace_on(alloc, input),
        Command::Load { seed, size } => load_on(alloc, seed, size),
    }
}
