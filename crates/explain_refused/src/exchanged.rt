//! Words that look exchanged.

use crate::fields::{BadField, Kind, has_kind, kind_of};
use crate::meanings::kind_words;
use crate::refusal::Refusal;
use explain_lines::{Part, say_line, word_at};
use std::alloc::AllocError;
use weave_text::Text;

/// Says if a field looks exchanged with the one before it or after it: each of the two is what the other one has to be.
pub(crate) fn exchanged_words(
    text: &mut Text,
    refusal: &Refusal,
    form: &'static [u8],
    bad: BadField,
) -> Result<(), AllocError> {
    let before = bad.place.saturating_sub(1);
    let after = bad.place.saturating_add(1);
    if is_exchanged(refusal, form, bad, before) {
        return say_exchanged(text, refusal, form, before);
    }
    if is_exchanged(refusal, form, bad, after) {
        return say_exchanged(text, refusal, form, bad.place);
    }
    Ok(())
}

// Whether a field looks exchanged with the one at a place, from 1.
fn is_exchanged(refusal: &Refusal, form: &'static [u8], bad: BadField, place: u64) -> bool {
    let word = word_from_1(refusal.at.text, place);
    let kind = kind_of(word_from_1(form, place), refusal.sizes);
    kind != Kind::Other
        && has_kind(bad.kind, word, refusal.sizes)
        && has_kind(kind, bad.word, refusal.sizes)
        && (bad.kind == Kind::Stamp
            || kind == Kind::Stamp
            || bad.word.iter().any(|byte| is_letter(*byte)))
}

fn is_letter(byte: u8) -> bool {
    b'a' <= byte && byte <= b'z'
}

fn word_from_1(line: &[u8], place: u64) -> &[u8] {
    if place == 0 {
        return b"";
    }
    word_at(line, place.saturating_sub(1) as usize).unwrap_or(b"")
}

// Says that the fields at a place and after it look exchanged.
fn say_exchanged(
    text: &mut Text,
    refusal: &Refusal,
    form: &'static [u8],
    place: u64,
) -> Result<(), AllocError> {
    let next = place.saturating_add(1);
    say_line(
        text,
        "Its words % and % look exchanged: first comes % (%), and then % (%).",
        &[
            Part::Number(place),
            Part::Number(next),
            Part::Word(kind_words(kind_of(word_from_1(form, place), refusal.sizes))),
            Part::Word(word_from_1(form, place)),
            Part::Word(kind_words(kind_of(word_from_1(form, next), refusal.sizes))),
            Part::Word(word_from_1(form, next)),
        ],
    )
}
