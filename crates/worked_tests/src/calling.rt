//! The commands of cases.
//!
//! `drive` is `run` on one thread. `drive on` does the script's steps, and then drives the core until each request has
//! its reply. `visits` asks the script's programs on a plain graph. `check each` judges all reports of a text with
//! choices, and `check random` random ones. `print script` and `print check` copy and print what they read. `explain`,
//! alone or before other words, is the command line of `explain` with these words. `nothing` is the command line
//! without words; every other command is the words of the top call.

use crate::choosing::check_each;
use crate::driving::drive_on;
use crate::ended::Ended;
use crate::manner::{Manner, Outside, plain};
use crate::printing::{print_input, print_judged};
use crate::random_reports::check_random;
use crate::visiting::visits;
use explain_top::explain;
use std::alloc::{AllocError, Global};
use std::sync::Wait;
use std::thread::Threads;
use weave_io::{MemorySink, MemorySource};
use weaver_top::{NoPace, execute, weave};

/// Whether the command has a source and a sink that may fail.
pub fn has_outside(command: &str) -> bool {
    !matches!(
        command,
        "drive on" | "visits" | "check each" | "check random" | "print script" | "print check"
    )
}

/// Whether the command writes a report if it ends well.
pub fn writes_report(command: &str) -> bool {
    matches!(command, "run" | "trace" | "drive" | "drive on")
}

/// Does a command of a case on an input.
pub fn call<R: Threads + Wait + Sync>(
    rt: &R,
    alloc: Global,
    command: &str,
    manner: &Manner,
    input: &[u8],
) -> Result<Ended, AllocError> {
    match command {
        "drive on" => drive_on(alloc, input),
        "visits" => visits(alloc, input),
        "check each" => check_each(alloc, input),
        "check random" => check_random(alloc, input),
        "print script" => print_input(alloc, input),
        "print check" => print_judged(alloc, input),
        _ => call_top(rt, alloc, command, manner, input),
    }
}

fn call_top<R: Threads + Wait + Sync>(
    rt: &R,
    alloc: Global,
    command: &str,
    manner: &Manner,
    input: &[u8],
) -> Result<Ended, AllocError> {
    let words = words_of(alloc, command)?;
    let mut source = source_of(alloc, &manner.source, input)?;
    let mut sink = sink_of(alloc, &manner.sink)?;
    let status = if command == "drive" {
        execute(alloc, &words, &mut source, &mut sink)
    } else if is_explained(command) {
        explain(alloc, &words, &mut source, &mut sink)
    } else {
        weave(rt, alloc, &words, &mut source, &mut sink, &NoPace)
    };
    Ok(Ended {
        status,
        text: Vec::from_slice(alloc, sink.bytes())?,
    })
}

/// What `check` says of an input.
pub fn check(alloc: Global, input: &[u8]) -> Result<Ended, AllocError> {
    let manner = plain(alloc);
    let words = split_words(alloc, "check")?;
    let mut source = source_of(alloc, &manner.source, input)?;
    let mut sink = sink_of(alloc, &manner.sink)?;
    let status = execute(alloc, &words, &mut source, &mut sink);
    Ok(Ended {
        status,
        text: Vec::from_slice(alloc, sink.bytes())?,
    })
}

fn source_of(alloc: Global, outside: &Outside, input: &[u8]) -> Result<MemorySource, AllocError> {
    let bytes = Vec::from_slice(alloc, input)?;
    let fails = Vec::from_slice(alloc, outside.fails.as_slice())?;
    Ok(MemorySource::new(bytes, fails, (outside.piece as usize).max(1)))
}

fn sink_of(alloc: Global, outside: &Outside) -> Result<MemorySink, AllocError> {
    let fails = Vec::from_slice(alloc, outside.fails.as_slice())?;
    Ok(MemorySink::new(alloc, fails, outside.piece as usize))
}

// Whether the command is one of `explain`.
fn is_explained(command: &str) -> bool {
    command == "explain" || command.starts_with("explain ")
}

// The words that the top call is given.
fn words_of(alloc: Global, command: &str) -> Result<Vec<String>, AllocError> {
    match command {
        "nothing" => Ok(Vec::new(alloc)),
        "drive" => split_words(alloc, "run"),
        "explain" => Ok(Vec::new(alloc)),
        _ => split_words(alloc, command.strip_prefix("explain ").unwrap_or(command)),
    }
}

fn split_words(alloc: Global, text: &str) -> Result<Vec<String>, AllocError> {
    let mut words = Vec::new(alloc);
    for word in text.split(' ') {
        words.push(String::from_str(alloc, word)?)?;
    }
    Ok(words)
}
