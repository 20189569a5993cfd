//! The form of cases. A case is a line that begins with `%` and says what it shows, and then a script and a report for
//! it. What is before the first case is for the reader. Its answer is that line again, and five lines: one for each
//! promise.

use crate::lines::push_promises;
use order_witness::{Judged, has_numbered_operations, judge_report};
use program_defs::Script;
use report_rules::Report;
use std::alloc::{AllocError, Global};
use weave_script::{ScriptFault, read_check};
use weave_text::{Pieces, Text, first_line};

/// The answers to all cases. A case that can't be read is `refused`, and a report that isn't right is `not right`.
pub fn answers(alloc: Global, input: &[u8]) -> Result<Vec<u8>, AllocError> {
    let mut text = Text::new(alloc);
    for case in Pieces::new(b'%', input).skip(1) {
        push_answer(alloc, &mut text, case)?;
    }
    Ok(text.into_bytes())
}

fn push_answer(alloc: Global, text: &mut Text, case: &[u8]) -> Result<(), AllocError> {
    let Some((shows, input)) = first_line(case) else {
        return Ok(());
    };
    text.push(b"%")?;
    push_line(text, shows)?;
    match read_check(alloc, input) {
        Ok((script, report)) => push_verdict(alloc, text, &script, &report),
        Err(ScriptFault::Refused { .. }) => push_line(text, b"refused"),
        Err(ScriptFault::Memory) => Err(AllocError),
    }
}

fn push_verdict(
    alloc: Global,
    text: &mut Text,
    script: &Script,
    report: &Report,
) -> Result<(), AllocError> {
    if !has_numbered_operations(script) {
        return push_line(text, b"too many operations");
    }
    let verdict = judge_report(alloc, script, report)?;
    match verdict {
        Judged::Yes => push_promises(alloc, text, script, report),
        Judged::No { .. } => push_line(text, b"not right"),
    }
}

fn push_line(text: &mut Text, line: &[u8]) -> Result<(), AllocError> {
    text.push(line)?;
    text.end_line()
}
