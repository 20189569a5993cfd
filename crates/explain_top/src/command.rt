//! What the command line asks for.
ghost use Rattle.std.specs.Prelude.{◌≡◌, map, string_bytes};
ghost use Rattle.explain_top.specs.Commands.{command_asked, command_by_word, picture_from, picture_of};

use explain_picture::Window;
use weave_text::number;

/// What the command line can ask for.
#[derive(Clone, Copy)]
pub enum Command {
    /// Reads a script and a report after it, and writes what `check` says, and why.
    Check,
    /// Reads a script alone, and writes why it is refused, or what it has.
    Script,
    /// Reads a script and a report after it, and draws the report.
    Picture(Window),
}

/// The places that are drawn if the command line names none.
const FIRST_SIXTY: Window = Window { from: 1, count: 60 };

/// The command that the command line asks for.
pub(crate) fn command_of(words: &[String]) -> Option<Command>
    ensures { result ≡ command_asked (map string_bytes words.now) }
{
    match words {
        [] => Some(Command::Check),
        [word] => command_named(word.as_str()),
        [word, from, count] => picture_of(word.as_str(), from.as_str(), count.as_str()),
        _ => None,
    }
}

fn command_named(word: &str) -> Option<Command>
    ensures { result ≡ command_by_word word.now }
{
    if word == "script" {
        Some(Command::Script)
    } else if word == "picture" {
        Some(Command::Picture(FIRST_SIXTY))
    } else {
        None
    }
}

// The first place, from 1, and how many, at least 1.
fn picture_of(word: &str, from: &str, count: &str) -> Option<Command>
    ensures { result ≡ picture_of word.now from.now count.now }
{
    if word != "picture" {
        return None;
    }
    let Some(from) = number(from.as_bytes()) else {
        return None;
    };
    let Some(count) = number(count.as_bytes()) else {
        return None;
    };
    picture_from(from, count)
}

fn picture_from(from: u64, count: u64) -> Option<Command>
    ensures { result ≡ picture_from from count }
{
    if from == 0 || count == 0 {
        return None;
    }
    Some(Command::Picture(Window { from, count }))
}
