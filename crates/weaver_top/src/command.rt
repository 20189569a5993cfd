//! What the command line asks for.
ghost use Rattle.std.specs.Prelude.{◌≡◌, map, string_bytes, IfSome};
ghost use Rattle.weaver_top.specs.Commands.{IsSized, command_named, command_of, load_of, reads_input};

use weave_data::MOST_REQUESTS;
use weave_text::number;

/// The most requests of a generated script.
const MOST_SIZE: u64 = MOST_REQUESTS as u64;

/// What the command line can ask for.
#[derive(Clone, Copy, PartialEq, Eq, Debug)]
pub enum Command {
    /// Reads a script, runs it, and writes its report.
    Run,
    /// Reads a script and a report after it, and writes whether the report is right. It judges every script and report
    /// that can be read.
    Check,
    /// Reads a script, does its steps one after another, and writes their report.
    Trace,
    /// Makes the script of the seed with `size` requests, 1 to 10,000, does its steps, answers every request, and
    /// writes a summary of the report. It reads nothing.
    Load { seed: u64, size: u32 },
}

/// The command that the command line asks for.
pub(crate) fn command_of(words: &[String]) -> Option<Command>
    ensures asked { result ≡ command_of (map string_bytes words.now) }
    ensures sized { IfSome result IsSized }
{
    match words {
        [word] => command_named(word.as_str()),
        [word, seed, size] => load_of(word.as_str(), seed.as_str(), size.as_str()),
        _ => None,
    }
}

/// Whether the command reads an input.
pub(crate) fn reads_input(command: Command) -> bool
    ensures { result ≡ reads_input command }
{
    match command {
        Command::Run | Command::Check | Command::Trace => true,
        Command::Load { .. } => false,
    }
}

fn command_named(word: &str) -> Option<Command>
    ensures named { result ≡ command_named word.now }
    ensures sized { IfSome result IsSized }
{
    if word == "run" {
        Some(Command::Run)
    } else if word == "check" {
        Some(Command::Check)
    } else if word == "trace" {
        Some(Command::Trace)
    } else {
        None
    }
}

// A seed of 64 bits and a size of 1 to 10,000, both without leading zeros.
fn load_of(word: &str, seed: &str, size: &str) -> Option<Command>
    ensures asked { result ≡ load_of word.now seed.now size.now }
    ensures sized { IfSome result IsSized }
{
    if word != "load" {
        return None;
    }
    let Some(seed) = number(seed.as_bytes()) else {
        return None;
    };
    let Some(size) = number(size.as_bytes()) else {
        return None;
    };
    if size == 0 || size > MOST_SIZE {
        return None;
    }
    Some(Command::Load {
        seed,
        size: size as u32,
    })
}
