//! What is wrong in a line that can't be seen, or is easily overlooked.

use crate::foreign_words::foreign_words;
use crate::refusal::Refusal;
use explain_lines::{Part, say_line};
use std::alloc::AllocError;
use weave_text::{Pieces, Text};

/// A byte order mark of UTF-8.
pub(crate) const MARK: &[u8] = b"\xEF\xBB\xBF";

/// Says of each byte of the line that no line of a script or a report has, and of spaces that are too many, how to mend
/// it.
pub(crate) fn unseen_words(text: &mut Text, refusal: &Refusal) -> Result<(), AllocError> {
    let line = refusal.at.text;
    if let Some(coding) = coding_of(refusal.input) {
        return say_line(text, UTF_16, &[Part::Word(coding)]);
    }
    if line.starts_with(MARK) {
        let form = if refusal.at.line == 1 {
            MARK_AT_START
        } else {
            MARK_INSIDE
        };
        say_line(text, form, &[])?;
    } else {
        foreign_words(text, refusal)?;
    }
    if line.ends_with(b"\r") {
        say_line(text, RETURN, &[Part::Number(returns(refusal.input))])?;
    } else {
        say_at(text, LONE_RETURN, place_of(line, b'\r'))?;
    }
    say_at(text, TAB, place_of(line, b'\t'))?;
    say_at(text, SPACE, place_of_space(line))?;
    say_at(text, COMMENT, place_of_comment(line))
}

/// The name of the input's coding if it is of 16 bits.
pub(crate) fn coding_of(input: &[u8]) -> Option<&'static [u8]> {
    if input.starts_with(b"\xFF\xFE") || input.starts_with(b"\xFE\xFF") {
        return Some(b"UTF-16");
    }
    match (input.first().copied(), input.get(1).copied()) {
        (Some(0), Some(_)) => Some(b"UTF-16BE"),
        (Some(_), Some(0)) => Some(b"UTF-16LE"),
        _ => None,
    }
}

// Says what is wrong at a byte of the line, from 0, if it is anywhere.
fn say_at(text: &mut Text, form: &str, place: Option<usize>) -> Result<(), AllocError> {
    match place {
        Some(place) => say_line(
            text,
            form,
            &[Part::Number((place as u64).saturating_add(1))],
        ),
        None => Ok(()),
    }
}

fn place_of(line: &[u8], wanted: u8) -> Option<usize> {
    line.iter().position(|byte| *byte == wanted)
}

// Where the first space is that is at an end of the line or follows another one.
fn place_of_space(line: &[u8]) -> Option<usize> {
    let mut last = b' ';
    for (place, byte) in line.iter().enumerate() {
        if *byte == b' ' && last == b' ' {
            return Some(place);
        }
        last = *byte;
    }
    if last == b' ' {
        return Some(line.len().saturating_sub(1));
    }
    None
}

// Where the first # is that begins a word.
fn place_of_comment(line: &[u8]) -> Option<usize> {
    let mut last = b' ';
    for (place, byte) in line.iter().enumerate() {
        if *byte == b'#' && (last == b' ' || last == b'\t') {
            return Some(place);
        }
        last = *byte;
    }
    None
}

const MARK_AT_START: &str =
    "It begins with a byte order mark (<EF><BB><BF>), which editors put before the first letter. This takes its \
    three bytes away: tail -c +4 < FILE > NEW_FILE";

const MARK_INSIDE: &str =
    "It begins with a byte order mark (<EF><BB><BF>), which editors put before the first letter of a file. This \
    takes its three bytes away from the file that begins here: tail -c +4 < FILE > NEW_FILE";

const UTF_16: &str =
    "The input is in UTF-16, which has two bytes for each letter. This makes it UTF-8: \
    iconv -f % -t UTF-8 < FILE > NEW_FILE";

const RETURN: &str =
    "It ends with a carriage return (<CR>), as files of Windows do: a line ends with a line feed \
    alone. Such lines in the input: % in all. This takes them away: tr -d '\\r' < FILE > NEW_FILE";

const LONE_RETURN: &str =
    "Its byte % is a carriage return (<CR>): a line ends with a line feed alone.";

const TAB: &str =
    "Its byte % is a tab (<TAB>): write one space for it, and none at the start or the end of a line.";

const SPACE: &str =
    "Its byte % is a space at its start or its end, or after another space (<SPACE>): words are separated \
    by exactly one space. Take the others away.";

const COMMENT: &str =
    "Its byte % is a #, and isn't its first byte: a comment is a line of its own, and begins with #.";

// How many lines end with a carriage return.
fn returns(input: &[u8]) -> u64 {
    let mut count: u64 = 0;
    for line in Pieces::new(b'\n', input) {
        if line.ends_with(b"\r") {
            count = count.saturating_add(1);
        }
    }
    count
}
