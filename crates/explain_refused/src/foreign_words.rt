//! Signs that no line of a script or a report has.

use crate::refusal::Refusal;
use explain_lines::{Part, Place, say, say_line};
use std::alloc::AllocError;
use weave_script::Cause;
use weave_text::Text;

/// Says which sign of the line is the first that is none of ASCII or can't be seen, and how to mend it.
pub(crate) fn foreign_words(text: &mut Text, refusal: &Refusal) -> Result<(), AllocError> {
    let line = refusal.at.text;
    let Some(place) = line.iter().position(|byte| is_foreign(*byte)) else {
        return Ok(());
    };
    let rest = line.get(place..).unwrap_or(b"");
    let first = (place as u64).saturating_add(1);
    let sign = rest.get(..length_of_sign(rest)).unwrap_or(rest);
    match sign.first().copied() {
        Some(byte) if is_control(byte) => {
            control_words(text, first, sign)?;
            control_command(text, u64::from(byte))
        }
        _ => {
            sign_words(text, first, sign)?;
            say_line(text, advice_on(refusal, sign), &[])
        }
    }
}

// A control character, which is at this byte of the line, from 1.
fn control_words(text: &mut Text, place: u64, sign: &[u8]) -> Result<(), AllocError> {
    say(
        text,
        "Its byte %, `%`, is a control character%: take it away. ",
        &[
            Part::Number(place),
            Part::Shown(sign),
            Part::Word(kind_of_control(sign)),
        ],
    )
}

// How to take a byte away.
fn control_command(text: &mut Text, code: u64) -> Result<(), AllocError> {
    say_line(
        text,
        "This takes each one of the input away: tr -d '\\%%%' < FILE > NEW_FILE",
        &[
            Part::Number(code / 64),
            Part::Number(code / 8 % 8),
            Part::Number(code % 8),
        ],
    )
}

fn kind_of_control(sign: &[u8]) -> &'static [u8] {
    match sign {
        b"\x1A" => b", the end-of-file mark of DOS (Ctrl-Z)",
        b"\x0C" => b", a form feed, which begins a page",
        b"\x1B" => b", an escape, which begins a color or another command for a terminal",
        _ => b"",
    }
}

// The bytes of a sign, of which the first is at this byte of the line, from 1.
fn sign_words(text: &mut Text, first: u64, sign: &[u8]) -> Result<(), AllocError> {
    if sign.len() < 2 {
        return say(
            text,
            "Its byte %, `%`, isn't an ASCII letter, digit or sign.",
            &[Part::Number(first), Part::Shown(sign)],
        );
    }
    let last = first.saturating_add(sign.len() as u64).saturating_sub(1);
    say(
        text,
        "Its bytes % to %, `%`, are one sign that isn't an ASCII letter, digit or sign.",
        &[Part::Number(first), Part::Number(last), Part::Shown(sign)],
    )
}

// How to mend a sign.
fn advice_on(refusal: &Refusal, sign: &[u8]) -> &'static str {
    match sign {
        b"\xC2\xA0" => " It is a no-break space: write a space for it.",
        b"\xE2\x80\x8B" | b"\xEF\xBB\xBF" => " It can't be seen: take it away.",
        _ if refusal.spots.place == Place::Ended => "",
        _ if refusal.cause == Cause::Name =>
            " Write a-z, 0-9 and _ for it, or take it away: names have no others.",
        _ => " Only comments may have such signs.",
    }
}

// How many bytes of these the first sign has, as UTF-8; one if they aren't UTF-8.
fn length_of_sign(bytes: &[u8]) -> usize {
    let more: usize = match bytes.first().copied() {
        Some(0xC2..=0xDF) => 1,
        Some(0xE0..=0xEF) => 2,
        Some(0xF0..=0xF4) => 3,
        _ => 0,
    };
    if count_continuing(bytes, more) == more {
        return more.saturating_add(1);
    }
    1
}

// How many of this many bytes after the first go on with a sign.
fn count_continuing(bytes: &[u8], more: usize) -> usize {
    let mut count: usize = 0;
    for byte in bytes.get(1..).unwrap_or(b"").iter().take(more) {
        if is_continuing(*byte) {
            count = count.saturating_add(1);
        }
    }
    count
}

fn is_continuing(byte: u8) -> bool {
    0x80 <= byte && byte < 0xC0
}

fn is_foreign(byte: u8) -> bool {
    byte > b'~' || (byte < b' ' && byte != b'\t' && byte != b'\r')
}

fn is_control(byte: u8) -> bool {
    byte < b' ' || byte == 0x7F
}
