//! Lines without what can't be seen.

use crate::fields::first_bad;
use crate::forms::form_of;
use crate::open_gots::has_due_got;
use crate::refusal::Refusal;
use crate::unseen::{MARK, coding_of};
use explain_lines::first_word;
use std::alloc::{AllocError, Global};
use weave_script::Cause;
use weave_text::{is, is_skipped};

/// Whether the line is well-formed once what can't be seen and what is easily overlooked are mended. What else would be
/// said of it only follows from these.
pub(crate) fn is_well_once_mended(refusal: &Refusal) -> Result<bool, AllocError> {
    if coding_of(refusal.input).is_some() {
        return Ok(true);
    }
    let mended = mended(refusal.alloc, refusal.at.text)?;
    let line = mended.as_slice();
    if is(line, refusal.at.text) || !is_of_form(refusal.cause) {
        return Ok(false);
    }
    Ok(is_skipped(line) || is_well_formed(refusal, line))
}

/// Whether a cause is in the words of the line alone.
pub(crate) fn is_of_form(cause: Cause) -> bool {
    matches!(
        cause,
        Cause::Header
            | Cause::Gatekeepers
            | Cause::Shards
            | Cause::Line
            | Cause::Name
            | Cause::Number
            | Cause::Session
            | Cause::Gatekeeper
            | Cause::Shard
            | Cause::Bound
            | Cause::Stamp
    )
}

// Whether a line has a form that may be there, with fields as they have to be.
fn is_well_formed(refusal: &Refusal, line: &[u8]) -> bool {
    match form_of(refusal.spots.place, line) {
        Some(form) => first_bad(form, line, refusal.sizes).is_none()
            && has_due_got(refusal) == is(first_word(line), b"got"),
        None => false,
    }
}

// A line without a byte order mark, control characters and a comment after words, with one space for each tab and each
// run of spaces, and none at its ends.
fn mended(alloc: Global, line: &[u8]) -> Result<Vec<u8>, AllocError> {
    let mut mended = Vec::new(alloc);
    let mut spaced = false;
    for byte in without_mark(line) {
        if is_space(*byte) {
            spaced = !mended.is_empty();
        } else if spaced && *byte == b'#' {
            return Ok(mended);
        } else if is_kept(*byte) {
            put(&mut mended, spaced, *byte)?;
            spaced = false;
        }
    }
    Ok(mended)
}

fn put(mended: &mut Vec<u8>, spaced: bool, byte: u8) -> Result<(), AllocError> {
    if spaced {
        mended.push(b' ')?;
    }
    mended.push(byte)?;
    Ok(())
}

fn without_mark(line: &[u8]) -> &[u8] {
    if line.starts_with(MARK) {
        return line.get(3..).unwrap_or(b"");
    }
    line
}

// A no-break space is 0xA0, after a 0xC2 in UTF-8.
fn is_space(byte: u8) -> bool {
    byte == b' ' || byte == b'\t' || byte == 0xA0
}

fn is_kept(byte: u8) -> bool {
    byte >= b' ' && byte != 0x7F && byte != 0xC2
}
