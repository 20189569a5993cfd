//! The form of a file of cases.
//!
//! A case is a line `--- COMMAND`, the input, a line `--- STATUS`, what has to be written, and a line `---`. After the
//! command and `, ` there may be words (`manner.rt`). A text after a line `--- given` is put before the input of each
//! case that follows, up to the next such line. What is between two cases is for the reader. A text ends with the end
//! of its last line; if its last line is `\`, with the line before that, less its line feed.

use std::alloc::{AllocError, Global};

/// A case, as it is in the file.
#[derive(Clone, Copy)]
pub struct Case<'a> {
    /// The number of marks before it in the file.
    pub mark: usize,
    pub given: &'a [u8],
    pub command: &'a str,
    pub manner: &'a str,
    pub input: &'a [u8],
    pub status: &'a str,
    pub output: &'a [u8],
}

// Where the reading is: between two cases, in an input, in what has to be written, or after this mark, which is out of
// turn.
#[derive(Clone, Copy)]
enum Place<'a> {
    Between,
    Input(&'a str, &'a str),
    Output,
    Wrong(usize),
}

/// The cases of a file, or the number of marks before the first one that is out of turn.
pub fn cases_of<'a>(
    alloc: Global,
    text: &'a str,
) -> Result<Result<Vec<Case<'a>>, usize>, AllocError> {
    let mut cases = Vec::new(alloc);
    let mut place = Place::Between;
    let mut given = b"".as_slice();
    let mut marks: usize = 0;
    for part in text.split("\n---").skip(1) {
        let (head, body) = head_and_body(part);
        if let Place::Input(line, input) = place {
            let mark = marks.saturating_sub(1);
            cases.push(case_of(mark, given, (line, input), (head, body)))?;
        }
        if is_given(place, head) {
            given = body.as_bytes();
        }
        place = place_after(place, head, body, marks);
        marks = marks.saturating_add(1);
    }
    Ok(match place {
        Place::Between => Ok(cases),
        Place::Wrong(mark) => Err(mark),
        Place::Input(..) | Place::Output => Err(marks.saturating_sub(1)),
    })
}

// The case of an input and an output, each a line after its mark and the lines after that.
fn case_of<'a>(
    mark: usize,
    given: &'a [u8],
    input: (&'a str, &'a str),
    output: (&'a str, &'a str),
) -> Case<'a> {
    let (command, manner) = command_and_manner(input.0);
    Case {
        mark,
        given,
        command,
        manner,
        input: input.1.as_bytes(),
        status: output.0,
        output: output.1.as_bytes(),
    }
}

fn is_given(place: Place, head: &str) -> bool {
    matches!(place, Place::Between) && head == "given"
}

// Where the reading is after a mark, what follows it on its line, and the lines after it.
fn place_after<'a>(place: Place<'a>, head: &'a str, body: &'a str, mark: usize) -> Place<'a> {
    match place {
        Place::Between if head == "" || head == "given" => Place::Between,
        Place::Between => Place::Input(head, body),
        Place::Input(..) => Place::Output,
        Place::Output if head == "" => Place::Between,
        Place::Output => Place::Wrong(mark),
        Place::Wrong(first) => Place::Wrong(first),
    }
}

// What follows the mark on its line, and the lines after it.
fn head_and_body(part: &str) -> (&str, &str) {
    match part.split_once('\n') {
        Some((head, body)) => (head.trim(), body),
        None => (part.trim(), ""),
    }
}

fn command_and_manner(line: &str) -> (&str, &str) {
    match line.split_once(", ") {
        Some(parts) => parts,
        None => (line, ""),
    }
}

/// The number of the line, from 1, with the mark that this many marks precede.
pub fn line_of(text: &str, marks: usize) -> usize {
    let mut line: usize = 1;
    for part in text.split("\n---").take(marks.saturating_add(1)) {
        line = line.saturating_add(part.matches('\n').count());
        line = line.saturating_add(1);
    }
    line
}

/// Puts the bytes of a text of a case behind these.
pub fn add_text(bytes: &mut Vec<u8>, text: &[u8]) -> Result<(), AllocError> {
    match text.strip_suffix(b"\n\\") {
        Some(start) => bytes.extend_from_slice(start),
        None if text.is_empty() => Ok(()),
        None => {
            bytes.extend_from_slice(text)?;
            bytes.push(b'\n')?;
            Ok(())
        }
    }
}
