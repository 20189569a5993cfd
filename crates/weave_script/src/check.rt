//! Reads a script and the report that follows it.
ghost use Rattle.std.specs.Prelude.{◌≡◌, Ok, Err, IfOk};
ghost use Rattle.weave_script.specs.Answers.{IfScriptRefused};
ghost use Rattle.weave_script.specs.CheckText.{IsCheckTextOf};
ghost use Rattle.weave_script.specs.CheckReading.{cause_of, check_text};

use crate::fault::{Cause, ScriptFault};
use crate::laws::{heads_are_texts, scripts_are_small};
use crate::read::before_report::{Head, read_head};
use program_defs::Script;
use std::alloc::Global;
use weave_report::{Report, ReportCause, ReportFault, read_report};

/// The script and the report of which the bytes are a text, first the script's and then the report's, or the first
/// fault of the text.
/// Lines are counted from the first one of all.
pub fn read_check(alloc: Global, bytes: &[u8]) -> Result<(Script, Report), ScriptFault>
    ensures read { IfOk result (λ told. check_text bytes.now ≡ Ok told) }
    ensures texts { IfOk result (λ told. IsCheckTextOf bytes.now told.0 told.1) }
    ensures refused { IfScriptRefused result (λ line cause. check_text bytes.now
        ≡ Err (record { line = line; cause = cause })) }
{
    heads_are_texts();
    scripts_are_small();
    let Head { script, line, left } = read_head(alloc, bytes)?;
    match read_report(alloc, &script, left, line) {
        Ok(report) => Ok((script, report)),
        Err(ReportFault::Refused { line, cause }) => Err(ScriptFault::Refused {
            line,
            cause: cause_of(cause),
        }),
        Err(ReportFault::Memory) => Err(ScriptFault::Memory),
    }
}

// A report's cause, as one of the whole input.
fn cause_of(cause: ReportCause) -> Cause
    ensures { result ≡ cause_of cause }
{
    match cause {
        ReportCause::Line => Cause::Line,
        ReportCause::Name => Cause::Name,
        ReportCause::Number => Cause::Number,
        ReportCause::Request => Cause::Request,
        ReportCause::Stamp => Cause::Stamp,
        ReportCause::End => Cause::End,
    }
}
