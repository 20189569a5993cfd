//! One case, tried.

use crate::calling::{call, check, has_outside, writes_report};
use crate::case_file::{Case, add_text};
use crate::ended::{Ended, name_of, status_of};
use crate::manner::{Manner, manner_of};
use crate::matching::difference;
use crate::slow::slow_line;
use std::alloc::{AllocError, Global};
use std::sync::Wait;
use std::thread::Threads;
use weaver_top::Status;

/// What is wrong with the case, in words, if something is.
pub fn fault_of<R: Threads + Wait + Sync>(
    rt: &R,
    alloc: Global,
    case: &Case,
) -> Result<Option<String>, AllocError> {
    let Some(wanted) = status_of(case.status) else {
        return say(alloc, "its status is no word for one");
    };
    let Some(manner) = manner_of(alloc, case.manner)? else {
        return say(alloc, "the words after its command say nothing");
    };
    if !manner.is_plain() && !has_outside(case.command) {
        return say(alloc, "its command has no source or sink that fails");
    }
    fault_of_calls(rt, alloc, case, wanted, &manner)
}

fn say(alloc: Global, words: &str) -> Result<Option<String>, AllocError> {
    Ok(Some(String::from_str(alloc, words)?))
}

// Calls the command as often as it has to be called, up to the first fault.
fn fault_of_calls<R: Threads + Wait + Sync>(
    rt: &R,
    alloc: Global,
    case: &Case,
    wanted: Status,
    manner: &Manner,
) -> Result<Option<String>, AllocError> {
    let input = input_of(alloc, case)?;
    for _ in 0..manner.times {
        let ended = call(rt, alloc, case.command, manner, input.as_slice())?;
        let fault = fault_of_end(alloc, case, wanted, input.as_slice(), &ended)?;
        if fault.is_some() {
            return Ok(fault);
        }
    }
    fault_of_judge(alloc, case, wanted, input.as_slice())
}

fn input_of(alloc: Global, case: &Case) -> Result<Vec<u8>, AllocError> {
    let mut input = Vec::new(alloc);
    add_text(&mut input, case.given)?;
    add_text(&mut input, case.input)?;
    Ok(input)
}

fn fault_of_end(
    alloc: Global,
    case: &Case,
    wanted: Status,
    input: &[u8],
    ended: &Ended,
) -> Result<Option<String>, AllocError> {
    if ended.status != wanted {
        return fault_of_status(alloc, ended);
    }
    let text = ended.text.as_slice();
    if let Some(line) = difference_of(alloc, case, text)? {
        return fault_of_text(alloc, text, line);
    }
    if wanted != Status::Done || !writes_report(case.command) {
        return Ok(None);
    }
    fault_of_report(alloc, input, text)
}

fn difference_of(alloc: Global, case: &Case, written: &[u8]) -> Result<Option<u64>, AllocError> {
    let mut wanted = Vec::new(alloc);
    add_text(&mut wanted, case.output)?;
    difference(alloc, wanted.as_slice(), written)
}

fn fault_of_status(alloc: Global, ended: &Ended) -> Result<Option<String>, AllocError> {
    let text = text_of(ended.text.as_slice());
    let start = text.get(..text.len().min(60)).unwrap_or("");
    Ok(Some(format!(in alloc; "it ends as {}: {start}", name_of(ended.status))?))
}

fn fault_of_text(alloc: Global, written: &[u8], number: u64) -> Result<Option<String>, AllocError> {
    let line = match text_of(written)
        .split('\n')
        .nth(number.saturating_sub(1) as usize)
    {
        Some(line) => line,
        None => "",
    };
    Ok(Some(format!(in alloc; "it writes something else, first in line {number}: {line}")?))
}

fn text_of(bytes: &[u8]) -> &str {
    str::from_utf8(bytes).unwrap_or("no text")
}

// What is wrong if `check` doesn't say that the report is right.
fn fault_of_report(
    alloc: Global,
    script: &[u8],
    report: &[u8],
) -> Result<Option<String>, AllocError> {
    let mut input = Vec::from_slice(alloc, script)?;
    if !script.ends_with(b"\n") {
        input.push(b'\n')?;
    }
    input.extend_from_slice(report)?;
    let ended = check(alloc, input.as_slice())?;
    if ended.status == Status::Done {
        return Ok(None);
    }
    Ok(Some(format!(in alloc;
        "check says of what it writes: {}",
        text_of(ended.text.as_slice())
    )?))
}

// What is wrong if the slow judge says something else of a report than `check` has to.
fn fault_of_judge(
    alloc: Global,
    case: &Case,
    wanted: Status,
    input: &[u8],
) -> Result<Option<String>, AllocError> {
    let is_judged = wanted == Status::Done || wanted == Status::NotRight;
    if case.command != "check" || !is_judged {
        return Ok(None);
    }
    let line = slow_line(alloc, input)?;
    if difference_of(alloc, case, line.as_slice())?.is_none() {
        return Ok(None);
    }
    Ok(Some(format!(in alloc; "the slow judge says: {}", text_of(line.as_slice()))?))
}
