//! The words for an input.

use crate::verdict::verdict_words;
use explain_lines::say_line;
use explain_refused::refusal_words;
use explain_right::script_words;
use program_defs::Script;
use std::alloc::{AllocError, Global};
use weave_script::{Cause, ScriptFault, checks_are_read, read_check, read_script};
use weave_text::Text;

/// Why `check` answers an input as it does.
pub fn why(alloc: Global, input: &[u8]) -> Result<Vec<u8>, AllocError> {
    checks_are_read();
    match read_check(alloc, input) {
        Ok((script, report)) => verdict_words(alloc, input, &script, &report),
        Err(ScriptFault::Refused { line, cause }) => refused(alloc, input, line, cause, true),
        Err(ScriptFault::Memory) => Err(AllocError),
    }
}

/// Why a script is refused, or what it has.
pub fn why_script(alloc: Global, input: &[u8]) -> Result<Vec<u8>, AllocError> {
    match read_script(alloc, input) {
        Ok(script) => accepted(alloc, &script),
        Err(ScriptFault::Refused { line, cause }) => refused(alloc, input, line, cause, false),
        Err(ScriptFault::Memory) => Err(AllocError),
    }
}

fn refused(
    alloc: Global,
    input: &[u8],
    line: u32,
    cause: Cause,
    with_report: bool,
) -> Result<Vec<u8>, AllocError> {
    let mut text = Text::new(alloc);
    refusal_words(alloc, &mut text, input, line, cause, with_report)?;
    Ok(text.into_bytes())
}

fn accepted(alloc: Global, script: &Script) -> Result<Vec<u8>, AllocError> {
    let mut text = Text::new(alloc);
    say_line(&mut text, "The script can be read.", &[])?;
    script_words(&mut text, script)?;
    Ok(text.into_bytes())
}
