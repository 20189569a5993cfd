//! The program: its command line, standard input and standard output for `explain`.
#![tactic(auto)]

use explain_top::explain;
use std::process::ExitCode;
use std::rt::Env;
use std::{env, io};
use weave_io::{StdSink, StdSource};
use weaver_top::Status;

fn main(rt: HostRuntime) -> ExitCode {
    let status = match words(&rt) {
        Ok(words) => explain(
            rt.alloc(),
            &words,
            &mut StdSource::new(&rt),
            &mut StdSink::new(&rt),
        ),
        Err(error) if error.kind() == io::ErrorKind::OutOfMemory => Status::Memory,
        // An argument that isn't text names no command.
        Err(_) => Status::Words,
    };
    status.exit_code()
}

// The arguments after the program's name.
fn words(rt: &(impl Env + AllocGlobal)) -> io::Result<Vec<String>> {
    let mut words = Vec::new(rt.alloc());
    for word in env::args(rt)?.skip(1) {
        words.push(word)?;
    }
    Ok(words)
}
