//! Tries the worked cases of every file `*.cases` in the folder that it is started in. It prints how many cases each
//! file has and how many of them fail, and names those on standard error. The status is 1 if one fails.
//!
//! `case_file.rt` says how a case is written down, and `calling.rt` what its command line may be.
#![tactic(auto)]

mod calling;
mod case_file;
mod choosing;
mod driving;
mod ended;
mod files;
mod manner;
mod matching;
mod printing;
mod random_reports;
mod slow;
mod trying;
mod visiting;

use std::io;
use std::process::ExitCode;

fn main(rt: HostRuntime) -> io::Result<ExitCode> {
    if files::try_all(&rt, rt.alloc())? {
        Ok(ExitCode::SUCCESS)
    } else {
        Ok(ExitCode::FAILURE)
    }
}
