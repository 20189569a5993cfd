//! What `check` answers to an input.
ghost use Rattle.std.specs.Prelude.{◌≡◌, ◌≤◌, ℕ, List, length, IfOk};
ghost use Rattle.weave_script.specs.CheckText.{IsCheckTextOf};
ghost use Rattle.weave_script.specs.Scripts.{IsScript};
ghost use Rattle.weaver_top.specs.Answers.{IsAnswerTo};
ghost use Rattle.weaver_top.specs.VerdictLines.{clause_text, no_line, yes_line};
ghost use Rattle.weave_script.specs.Limits.{IsShort};

use crate::answer::{Answer, refusal};
use crate::command::Command;
use crate::status::Status;
use order_witness::{Clause, Judged, judge_report};
use program_defs::Script;
use std::alloc::{AllocError, Global};
use weave_report::Report;
use weave_script::{ScriptFault, checks_are_read, read_check, scripts_are_small};
use weave_text::Text;

/// Reads the script and the report after it, and says whether the report is right; or says why the input can't be read.
pub(crate) fn verdict_on(alloc: Global, input: &[u8]) -> Result<Answer, AllocError>
    requires { IsShort input.now }
    ensures { IfOk result (IsAnswerTo Command.Check input.now) }
{
    checks_are_read();
    match read_check(alloc, input) {
        Ok((script, report)) => verdict_for(alloc, &script, &report),
        Err(ScriptFault::Refused { line, cause }) => refusal(alloc, line, cause.text()),
        Err(ScriptFault::Memory) => Err(AllocError),
    }
}

// Judges the report.
fn verdict_for(alloc: Global, script: &Script, report: &Report) -> Result<Answer, AllocError>
    requires { IsScript script.now }
    ensures { IfOk result (λ answer. (input : List ℕ)
        → IsShort input → IsCheckTextOf input script.now report.now → IsAnswerTo Command.Check input answer) }
{
    scripts_are_small();
    match judge_report(alloc, script, report)? {
        Judged::Yes => Ok(Answer {
            status: Status::Done,
            text: yes(alloc)?,
        }),
        Judged::No { clause, place } => Ok(Answer {
            status: Status::NotRight,
            text: no(alloc, clause, place)?,
        }),
    }
}

// The line for a right report.
fn yes(alloc: Global) -> Result<Vec<u8>, AllocError>
    ensures { IfOk result (λ text. text.items ≡ yes_line) }
{
    let mut text = Text::new(alloc);
    text.push(b"yes")?;
    text.end_line()?;
    Ok(text.into_bytes())
}

// The line for one that isn't.
fn no(alloc: Global, clause: Clause, place: u64) -> Result<Vec<u8>, AllocError>
    ensures { IfOk result (λ text. text.items ≡ no_line clause place) }
{
    let mut text = Text::new(alloc);
    text.push(b"no")?;
    text.word(clause_text(clause))?;
    text.number_word(place)?;
    text.end_line()?;
    Ok(text.into_bytes())
}

// The word of a clause.
fn clause_text(clause: Clause) -> &'static [u8]
    ensures { result.now ≡ clause_text clause }
{
    match clause {
        Clause::I => b"i",
        Clause::Ii => b"ii",
        Clause::Iii => b"iii",
        Clause::Iv => b"iv",
        Clause::V => b"v",
        Clause::Vi => b"vi",
        Clause::Vii => b"vii",
        Clause::Viii => b"viii",
    }
}
