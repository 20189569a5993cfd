//! Says of scripts and reports, read from standard input, what each report doesn't keep of what `run` promises.
//!
//! `cases.rt` says how they are written down. The status is 0 if all of them were judged.
#![tactic(auto)]

mod cases;
mod lines;

use std::process::ExitCode;
use weave_io::{StdSink, StdSource, read_all, write_all};

fn main(rt: HostRuntime) -> ExitCode {
    let alloc = rt.alloc();
    let Ok(input) = read_all(alloc, &mut StdSource::new(&rt)) else {
        return ExitCode::from(1);
    };
    let Ok(text) = cases::answers(alloc, input.as_slice()) else {
        return ExitCode::from(4);
    };
    match write_all(&mut StdSink::new(&rt), text.as_slice()) {
        Ok(()) => ExitCode::SUCCESS,
        Err(_) => ExitCode::from(3),
    }
}
