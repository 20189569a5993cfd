//! Calls of `weave` on inputs in memory; its statuses, and inputs that are too long for each command.

use std::alloc::{AllocError, Global};
use std::process::ExitCode;
use std::sync::Wait;
use std::test::Fail;
use std::thread::Threads;
use weave_io::{MemorySink, MemorySource};
use weaver_top::{NoPace, Pace, Status, execute, weave};

// How the command of one word ends at a pace, and what was written. `drive` is `run` on one thread.
pub fn call<R: Threads + Wait + Sync, P: Pace>(
    rt: &R,
    alloc: Global,
    command: &str,
    input: &[u8],
    pace: &P,
) -> Result<(Status, Vec<u8>), AllocError> {
    let is_driven = command == "drive";
    let word = if is_driven { "run" } else { command };
    let mut words = Vec::new(alloc);
    words.push(String::from_str(alloc, word)?)?;
    let mut source = MemorySource::new(Vec::from_slice(alloc, input)?, Vec::new(alloc), 65_536);
    let mut sink = MemorySink::new(alloc, Vec::new(alloc), 65_536);
    let status = if is_driven {
        execute(alloc, &words, &mut source, &mut sink)
    } else {
        weave(rt, alloc, &words, &mut source, &mut sink, pace)
    };
    Ok((status, Vec::from_slice(alloc, sink.bytes())?))
}

// Whether the command, `run` or `drive`, takes the script, and `check` says that the report that it writes is right.
pub fn is_run<R: Threads + Wait + Sync>(
    rt: &R,
    alloc: Global,
    command: &str,
    script: &[u8],
) -> Result<bool, AllocError> {
    let (status, report) = call(rt, alloc, command, script, &NoPace)?;
    let mut input = Vec::from_slice(alloc, script)?;
    input.extend_from_slice(report.as_slice())?;
    let (_, verdict) = call(rt, alloc, "check", input.as_slice(), &NoPace)?;
    Ok(status == Status::Done && verdict.as_slice() == b"yes\n".as_slice())
}

#[test]
fn statuses_have_their_numbers(rt: HostRuntime) {
    let statuses = [
        Status::Done,
        Status::Read,
        Status::Refused,
        Status::Write,
        Status::Memory,
        Status::Words,
        Status::NotRight,
        Status::Disk,
        Status::Foreign,
    ];
    for (number, status) in statuses.iter().enumerate() {
        assert!(rt; usize::from(status.number()) == number);
        assert!(rt; status.exit_code() == ExitCode::from(status.number()));
    }
}

#[test]
fn inputs_that_are_too_long(rt: HostRuntime) -> Result<(), Fail> {
    let spaces = vec![in rt.alloc(); b' '; 4_194_305]?;
    for command in ["run", "trace", "check"] {
        let (status, text) = call(&rt, rt.alloc(), command, spaces.as_slice(), &NoPace)?;
        assert!(rt; status == Status::Refused, "{command}");
        assert!(rt;
            text.as_slice() == b"refused 0 too_long\n".as_slice(),
            "{command}"
        );
    }
    Ok(())
}
