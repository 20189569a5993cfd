//! The program: its command line, standard input and standard output for `weave_kept`, with a file for `keep`.
#![tactic(auto)]

use std::process::ExitCode;
use std::rt::Env;
use std::{env, io};
use store_journal::FileDisk;
use weave_io::{StdSink, StdSource};
use weave_keep::weave_kept;
use weaver_top::{NoPace, Status};

fn main(rt: HostRuntime) -> ExitCode {
    let status = match words(&rt) {
        Ok(words) => weave_kept(
            &rt,
            rt.alloc(),
            &words,
            &mut StdSource::new(&rt),
            &mut StdSink::new(&rt),
            &NoPace,
            &mut FileDisk::at(&rt, second(&words)),
        ),
        Err(error) if error.kind() == io::ErrorKind::OutOfMemory => Status::Memory,
        // An argument that isn't text names no command.
        Err(_) => Status::Words,
    };
    status.exit_code()
}

// The second word, which is the path of `keep`, or no text.
fn second(words: &[String]) -> &str {
    match words {
        [_, path, ..] => path.as_str(),
        _ => "",
    }
}

// The arguments after the program's name.
fn words(rt: &(impl Env + AllocGlobal)) -> io::Result<Vec<String>> {
    let mut words = Vec::new(rt.alloc());
    for word in env::args(rt)?.skip(1) {
        words.push(word)?;
    }
    Ok(words)
}
