//! Texts that are read, copied and printed again.

use crate::ended::{Ended, done, refused};
use program_defs::Script;
use std::alloc::{AllocError, Global};
use weave_data::Copied;
use weave_report::{Report, print_report};
use weave_script::{print_script, read_check, read_script};

/// The script that the input is, printed; or the line and the cause for which it is refused.
pub fn print_input(alloc: Global, input: &[u8]) -> Result<Ended, AllocError> {
    match read_script(alloc, input) {
        Ok(script) => print_copied_script(alloc, &script),
        Err(fault) => refused(alloc, fault),
    }
}

fn print_copied_script(alloc: Global, script: &Script) -> Result<Ended, AllocError> {
    let copied = script.copy(alloc)?;
    match print_script(alloc, &copied) {
        Ok(text) => Ok(done(text)),
        Err(error) => Err(error),
    }
}

/// The report after the script, printed; or the line and the cause for which the input is refused.
pub fn print_judged(alloc: Global, input: &[u8]) -> Result<Ended, AllocError> {
    match read_check(alloc, input) {
        Ok((script, report)) => print_copied_report(alloc, &script, &report),
        Err(fault) => refused(alloc, fault),
    }
}

fn print_copied_report(
    alloc: Global,
    script: &Script,
    report: &Report,
) -> Result<Ended, AllocError> {
    let copied = report.copy(alloc)?;
    match print_report(alloc, script, &copied) {
        Ok(text) => Ok(done(text)),
        Err(error) => Err(error),
    }
}
