//! Reads a script that a report follows.
ghost use Rattle.std.specs.Prelude.{◌≤◌, ◌+◌, length, IfOk};
ghost use Rattle.weave_data.specs.Limits.{most_bytes};
ghost use Rattle.weave_script.specs.Parts.{GivesHead};
ghost use Rattle.weave_script.specs.ReadText.{head_of_text};

use crate::fault::{Cause, ScriptFault};
use crate::read::part::{Part, read_part};
use crate::read::script_at;
use program_defs::Script;
use std::alloc::Global;
use weave_text::first_line;

/// A script that a report follows, the number of the report's first line, and the text from there on.
#[derive(Drop)]
pub(crate) struct Head<'a> {
    pub(crate) script: Script,
    pub(crate) line: u32,
    pub(crate) left: &'a [u8],
}

/// The script before a report, or the first fault of the text up to there.
pub(crate) fn read_head(alloc: Global, bytes: &[u8]) -> Result<Head<'_>, ScriptFault>
    ensures head { GivesHead result (head_of_text bytes.now) }
    ensures from_one { IfOk result (λ head. 1 ≤ head.line) }
    ensures room { IfOk result (λ head. head.line + length head.left.now ≤ most_bytes + 1) }
{
    let Part { reader, line, left } = read_part(alloc, true, bytes)?;
    match script_at(reader.reading) {
        Ok(_) if first_line(left).is_none() => Err(ScriptFault::Refused {
            line,
            cause: Cause::End,
        }),
        Ok(script) => Ok(Head { script, line, left }),
        Err(cause) => Err(ScriptFault::Refused { line, cause }),
    }
}
