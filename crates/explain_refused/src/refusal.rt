//! Why an input is refused.

use crate::end_words::end_words;
use crate::field_words::field_words;
use crate::fields::{Sizes, sizes_of};
use crate::form_words::form_words;
use crate::limit_words::limit_words;
use crate::line_words::line_words;
use crate::mended::is_well_once_mended;
use crate::other_script::other_script_words;
use crate::unseen::{coding_of, unseen_words};
use explain_lines::{Part, Spot, Spots, line_of, say_line, walk};
use std::alloc::{AllocError, Global};
use weave_script::Cause;
use weave_text::Text;

/// An input that is refused at a line, and the lines before it.
#[derive(Clone, Copy)]
pub(crate) struct Refusal<'s, 'a> {
    pub(crate) alloc: Global,
    pub(crate) input: &'a [u8],
    pub(crate) spots: &'s Spots<'a>,
    pub(crate) at: Spot<'a>,
    pub(crate) cause: Cause,
    /// Whether a report follows the script.
    pub(crate) with_report: bool,
    pub(crate) sizes: Sizes,
}

/// Says why an input is refused at a line for a cause.
pub fn refusal_words(
    alloc: Global,
    text: &mut Text,
    input: &[u8],
    line: u32,
    cause: Cause,
    with_report: bool,
) -> Result<(), AllocError> {
    if cause == Cause::TooLong {
        return say_line(text, TOO_LONG, &[Part::Number(input.len() as u64)]);
    }
    let spots = walk(alloc, input, line, with_report)?;
    let sizes = sizes_of(&spots);
    let found = line_of(input, line).unwrap_or(b"");
    let refusal = Refusal {
        alloc,
        input,
        spots: &spots,
        at: Spot { line, text: found },
        cause,
        with_report,
        sizes,
    };
    words_of(text, &refusal)
}

const TOO_LONG: &str =
    "The input is too long: it may have at most 4194304 bytes. Nothing else was looked at.";

// Says why, at a line or at the end of the input.
fn words_of(text: &mut Text, refusal: &Refusal) -> Result<(), AllocError> {
    if refusal.at.text.is_empty() {
        end_words(text, refusal)?;
        return other_script_words(text, refusal);
    }
    let line = Part::Number(u64::from(refusal.at.line));
    say_line(text, "Line % of the input can't be accepted:", &[line])?;
    show(text, refusal)?;
    unseen_words(text, refusal)?;
    if is_well_once_mended(refusal)? {
        return Ok(());
    }
    cause_words(text, refusal)?;
    other_script_words(text, refusal)?;
    form_words(text, refusal)
}

/// The most bytes that are shown of a line in UTF-16.
const MOST_SHOWN: usize = 8;

// Shows the line; of a line in UTF-16 its start.
fn show(text: &mut Text, refusal: &Refusal) -> Result<(), AllocError> {
    let line = refusal.at.text;
    if coding_of(refusal.input).is_some() && line.len() > MOST_SHOWN {
        let start = line.get(..MOST_SHOWN).unwrap_or(line);
        return say_line(text, "    % ..", &[Part::Shown(start)]);
    }
    say_line(text, "    %", &[Part::Shown(line)])
}

// What is wrong in a line.
fn cause_words(text: &mut Text, refusal: &Refusal) -> Result<(), AllocError> {
    match refusal.cause {
        Cause::Header | Cause::Line => line_words(text, refusal),
        Cause::Operations
        | Cause::Requests
        | Cause::Programs
        | Cause::Gets
        | Cause::Vertices
        | Cause::Steps => limit_words(text, refusal.cause),
        _ => field_words(text, refusal),
    }
}
