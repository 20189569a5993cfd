//! Sentences: a form with places for what differs.

use crate::shown::put_shown;
use std::alloc::AllocError;
use weave_text::{Pieces, Text};

/// What takes a place in a form.
#[derive(Clone, Copy)]
pub enum Part<'a> {
    /// Bytes as they are.
    Word(&'a [u8]),
    /// A number.
    Number(u64),
    /// Bytes of the input, with what can't be seen made visible.
    Shown(&'a [u8]),
    /// Bytes as text of XML.
    Xml(&'a [u8]),
}

/// Writes a form: each `%` is a place, and takes the next part.
pub fn say(text: &mut Text, form: &str, parts: &[Part]) -> Result<(), AllocError> {
    let mut place: usize = 0;
    for piece in Pieces::new(b'%', form.as_bytes()) {
        if place > 0 {
            put_at(text, parts, place - 1)?;
        }
        text.push(piece)?;
        place = place.saturating_add(1);
    }
    Ok(())
}

/// Writes a form, and ends the line.
pub fn say_line(text: &mut Text, form: &str, parts: &[Part]) -> Result<(), AllocError> {
    say(text, form, parts)?;
    text.end_line()
}

// Writes the part of this number, from 0.
fn put_at(text: &mut Text, parts: &[Part], place: usize) -> Result<(), AllocError> {
    match parts.get(place) {
        Some(part) => put_part(text, *part),
        None => Ok(()),
    }
}

fn put_part(text: &mut Text, part: Part) -> Result<(), AllocError> {
    match part {
        Part::Word(bytes) => text.push(bytes),
        Part::Number(number) => text.number(number),
        Part::Shown(bytes) => put_shown(text, bytes),
        Part::Xml(bytes) => put_escaped(text, bytes),
    }
}

// Writes bytes as text of XML; a control sign, which XML doesn't allow, as `?`.
fn put_escaped(text: &mut Text, bytes: &[u8]) -> Result<(), AllocError> {
    for byte in bytes {
        match *byte {
            b'<' => text.push(b"&lt;")?,
            b'>' => text.push(b"&gt;")?,
            b'&' => text.push(b"&amp;")?,
            b'\'' => text.push(b"&apos;")?,
            b'"' => text.push(b"&quot;")?,
            b' '..=b'~' => text.push(&[*byte])?,
            _ => text.push(b"?")?,
        }
    }
    Ok(())
}
