//! The `got` lines that a reply has to have.

use crate::refusal::Refusal;
use explain_lines::{Part, Place, Spot, Spots, first_word, named, say_line, word_at};
use std::alloc::AllocError;
use weave_text::{Pieces, Text, is, is_skipped};

/// Whether the line has to be a `got` line of the last reply.
pub(crate) fn has_due_got(refusal: &Refusal) -> bool {
    next_get(refusal).is_some()
}

/// A `get` whose answer is due: its number among the operations, and its line.
#[derive(Clone, Copy)]
pub(crate) struct DueGet<'a> {
    pub(crate) number: u64,
    pub(crate) at: Spot<'a>,
}

/// The `get` whose answer has to be at the line.
pub(crate) fn next_get<'a>(refusal: &Refusal<'_, 'a>) -> Option<DueGet<'a>> {
    if refusal.spots.place != Place::Replies {
        return None;
    }
    let reply = last_reply(refusal.spots)?;
    if !is(word_at(reply.text, 3)?, b"committed") {
        return None;
    }
    let request = named(refusal.spots.requests.as_slice(), reply.name())?;
    get_of(refusal.input, request, u64::from(refusal.spots.gots))
}

/// The last reply line.
pub(crate) fn last_reply<'a>(spots: &Spots<'a>) -> Option<Spot<'a>> {
    spots.replies.as_slice().last().copied()
}

// The `get` of a transaction after as many others.
fn get_of<'a>(input: &'a [u8], request: Spot<'a>, others: u64) -> Option<DueGet<'a>> {
    let mut line: u32 = 0;
    let mut number: u64 = 0;
    let mut passed: u64 = 0;
    for text in Pieces::new(b'\n', input) {
        line = line.saturating_add(1);
        if line <= request.line || is_skipped(text) {
            continue;
        }
        if is(first_word(text), b"end") {
            return None;
        }
        number = number.saturating_add(1);
        if is(first_word(text), b"get") {
            if passed == others {
                let at = Spot { line, text };
                return Some(DueGet { number, at });
            }
            passed = passed.saturating_add(1);
        }
    }
    None
}

/// Says that a `got` line has to be here.
pub(crate) fn due_got(text: &mut Text, refusal: &Refusal) -> Result<(), AllocError> {
    let (Some(get), Some(reply)) = (next_get(refusal), last_reply(refusal.spots)) else {
        return Ok(());
    };
    say_line(
        text,
        "The `got` line that has to be here is of the reply of `%` (line %), for its operation %, `%` (line %):",
        &[
            Part::Word(reply.name()),
            Part::Number(u64::from(reply.line)),
            Part::Number(get.number),
            Part::Shown(get.at.text),
            Part::Number(u64::from(get.at.line)),
        ],
    )?;
    got_form(text, get.number)
}

fn got_form(text: &mut Text, number: u64) -> Result<(), AllocError> {
    say_line(text, "    got % STATE", &[Part::Number(number)])
}

/// Says that a `got` line is one too many.
pub(crate) fn extra_got(text: &mut Text, refusal: &Refusal) -> Result<(), AllocError> {
    let Some(reply) = last_reply(refusal.spots) else {
        return say_line(text, NO_REPLY, &[]);
    };
    say_line(
        text,
        "This `got` line is one too many. The reply before it is that of `%` (line %):",
        &[
            Part::Word(reply.name()),
            Part::Number(u64::from(reply.line)),
        ],
    )?;
    say_line(text, "    %", &[Part::Shown(reply.text)])?;
    gots_before(text, refusal.spots.gots)
}

fn gots_before(text: &mut Text, gots: u32) -> Result<(), AllocError> {
    say_line(
        text,
        "It has one `got` line for each `get` of a committed transaction, and no others. Before this line it has: %.",
        &[Part::Number(u64::from(gots))],
    )
}

const NO_REPLY: &str =
    "A `got` line follows the reply of its transaction, and there is no reply yet.";
