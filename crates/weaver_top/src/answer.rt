//! An answer, and those to an input that is refused.
ghost use Rattle.std.specs.Prelude.{◌≡◌, ◌<◌, ℕ, true, List, length, IfOk};
ghost use Rattle.weaver_top.specs.Answers.{IsAnswerTo};
ghost use Rattle.weaver_top.specs.Commands.{reads_input};
ghost use Rattle.weaver_top.specs.Refusals.{refusal_line};
ghost use Rattle.weave_script.specs.Limits.{IsLong};

use crate::command::Command;
use crate::status::Status;
use std::alloc::{AllocError, Global};
use weave_script::Cause;
use weave_text::Text;

/// What is to be written, and the status once it is.
#[derive(Drop)]
pub(crate) struct Answer {
    pub(crate) status: Status,
    pub(crate) text: Vec<u8>,
}

/// Says that the input is too long.
pub(crate) fn too_long(alloc: Global) -> Result<Answer, AllocError>
    ensures answer { IfOk result (λ answer. (command : Command) (input : List ℕ)
        → reads_input command ≡ true → IsLong input → IsAnswerTo command input answer) }
    ensures refused { IfOk result (λ answer. answer.status ≡ Status.Refused) }
{
    refusal(alloc, 0, Cause::TooLong.text())
}

/// The answer for an input that is refused.
pub(crate) fn refusal(alloc: Global, line: u32, cause: &[u8]) -> Result<Answer, AllocError>
    ensures status { IfOk result (λ answer. answer.status ≡ Status.Refused) }
    ensures text { IfOk result (λ answer. answer.text.items ≡ refusal_line line cause.now) }
{
    let text = refusal_text(alloc, line, cause)?;
    Ok(Answer {
        status: Status::Refused,
        text,
    })
}

/// The line for an input that is refused.
pub fn refusal_text(alloc: Global, line: u32, cause: &[u8]) -> Result<Vec<u8>, AllocError>
    ensures { IfOk result (λ text. text.items ≡ refusal_line line cause.now) }
{
    let mut text = Text::new(alloc);
    text.push(b"refused")?;
    text.number_word(u64::from(line))?;
    text.word(cause)?;
    text.end_line()?;
    Ok(text.into_bytes())
}
