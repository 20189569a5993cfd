//! What is written for an input.
ghost use Rattle.std.specs.Prelude.{◌≡◌, ℕ, ◌++◌, List, IfOk};
ghost use Rattle.explain_top.specs.Explained.{CanEnd, Explains};
ghost use Rattle.weave_script.specs.Limits.{IsLong};
ghost use Rattle.weave_script.specs.Scripts.{IsScript};
ghost use Rattle.weaver_top.specs.Refusals.{refusal_line};
ghost use Rattle.weave_script.specs.CauseTexts.{cause_text};

use crate::check_line::{Asked, ask_check};
use crate::command::Command;
use explain_picture::{Mark, Verdict, Window, picture};
use explain_words::{judged, why, why_script};
use order_witness::Judged;
use program_defs::Script;
use std::alloc::{AllocError, Global};
use weave_report::Report;
use weave_script::{Cause, ScriptFault, checks_are_read, read_check, read_script, texts_are_read};
use weaver_top::{Status, refusal_text};

/// What is to be written, and the status once it is.
#[derive(Drop)]
pub(crate) struct Answer {
    pub(crate) status: Status,
    pub(crate) text: Vec<u8>,
}

/// What the command answers to an input that was read whole.
pub(crate) fn answer_to(alloc: Global, command: Command, input: &[u8]) -> Result<Answer, AllocError>
    ensures explains { IfOk result (λ answer. Explains command answer.status input.now answer.text.items) }
    ensures ends { IfOk result (λ answer. CanEnd command answer.status) }
{
    match command {
        Command::Check => judged_words(alloc, input),
        Command::Script => script_words(alloc, input),
        Command::Picture(window) => drawn(alloc, input, window),
    }
}

/// The answer to an input that is too long.
pub(crate) fn too_long(alloc: Global) -> Result<Answer, AllocError>
    ensures explains { (command : Command) (input : List ℕ) → IsLong input
        → IfOk result (λ answer. Explains command answer.status input answer.text.items) }
    ensures refused { IfOk result (λ answer. answer.status ≡ Status.Refused) }
{
    refused_for(
        alloc,
        0,
        Cause::TooLong,
        b"The input is too long: it may have at most 4194304 bytes. Nothing else was looked at.\n",
    )
}

// What `check` says of an input, and why.
fn judged_words(alloc: Global, input: &[u8]) -> Result<Answer, AllocError>
    ensures explains { IfOk result (λ answer. Explains Command.Check answer.status input.now answer.text.items) }
    ensures ends { IfOk result (λ answer. CanEnd Command.Check answer.status) }
{
    let Asked { status, line } = ask_check(alloc, input)?;
    let reasons = why(alloc, input)?;
    followed(status, line, reasons.as_slice())
}

// A line and what follows it.
fn followed(status: Status, line: Vec<u8>, more: &[u8]) -> Result<Answer, AllocError>
    ensures status { IfOk result (λ answer. answer.status ≡ status) }
    ensures text { IfOk result (λ answer. answer.text.items ≡ line.items ++ more.now) }
{
    let mut text = line;
    text.extend_from_slice(more)?;
    Ok(Answer { status, text })
}

// The line for an input that is refused, and what follows it.
fn refused_for(alloc: Global, line: u32, cause: Cause, more: &[u8]) -> Result<Answer, AllocError>
    ensures status { IfOk result (λ answer. answer.status ≡ Status.Refused) }
    ensures text { IfOk result (λ answer. answer.text.items ≡ refusal_line line (cause_text cause) ++ more.now) }
{
    let first = refusal_text(alloc, line, cause.text())?;
    followed(Status::Refused, first, more)
}

// Why a script is refused, or what it has.
fn script_words(alloc: Global, input: &[u8]) -> Result<Answer, AllocError>
    ensures explains { IfOk result (λ answer. Explains Command.Script answer.status input.now answer.text.items) }
    ensures ends { IfOk result (λ answer. CanEnd Command.Script answer.status) }
{
    let reasons = why_script(alloc, input)?;
    texts_are_read();
    match read_script(alloc, input) {
        Ok(_) => Ok(Answer {
            status: Status::Done,
            text: reasons,
        }),
        Err(ScriptFault::Refused { line, cause }) => {
            refused_for(alloc, line, cause, reasons.as_slice())
        }
        Err(ScriptFault::Memory) => Err(AllocError),
    }
}

// The picture of a report; or why there is none.
fn drawn(alloc: Global, input: &[u8], window: Window) -> Result<Answer, AllocError>
    ensures explains { IfOk result (λ answer.
        Explains (Command.Picture window) answer.status input.now answer.text.items) }
    ensures ends { IfOk result (λ answer. CanEnd (Command.Picture window) answer.status) }
{
    let Asked { status, line } = ask_check(alloc, input)?;
    if status == Status::Refused {
        return not_drawn(alloc, input, line);
    }
    checks_are_read();
    match read_check(alloc, input) {
        Ok((script, report)) => drawn_report(alloc, &script, &report, window, line.as_slice()),
        Err(_) => Err(AllocError),
    }
}

// The line of `check` for an input that it refuses, and why.
fn not_drawn(alloc: Global, input: &[u8], line: Vec<u8>) -> Result<Answer, AllocError>
    ensures status { IfOk result (λ answer. answer.status ≡ Status.Refused) }
    ensures text { IfOk result (λ answer. (more : List ℕ) × (answer.text.items ≡ line.items ++ more)) }
{
    let reasons = why(alloc, input)?;
    followed(Status::Refused, line, reasons.as_slice())
}

fn drawn_report(
    alloc: Global,
    script: &Script,
    report: &Report,
    window: Window,
    line: &[u8],
) -> Result<Answer, AllocError>
    requires { IsScript script.now }
    ensures { IfOk result (λ answer. answer.status ≡ Status.Done) }
{
    let (is_right, mark) = match judged(alloc, script, report)? {
        Judged::Yes => (true, Mark::Nothing),
        Judged::No { clause, place } => (false, Mark::of(report, clause, place)),
    };
    let verdict = Verdict {
        line: line.strip_suffix(b"\n").unwrap_or(line),
        is_right,
        mark,
    };
    let text = picture(alloc, script, report, window, verdict)?;
    Ok(Answer {
        status: Status::Done,
        text,
    })
}
