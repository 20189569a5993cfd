//! Lines as they are shown: what can't be seen is made visible.

use std::alloc::AllocError;
use weave_text::Text;

/// The most bytes of a line that are shown.
const MOST_SHOWN: usize = 160;

/// Writes bytes of the input: a carriage return as `<CR>`, a tab as `<TAB>`, a space beside another one or at an end as
/// `<SPACE>`, each other byte that is no ASCII letter or sign as its two digits in `<..>`. A long line is cut.
pub fn put_shown(text: &mut Text, line: &[u8]) -> Result<(), AllocError> {
    let mut last = b' ';
    for (place, byte) in line.iter().take(MOST_SHOWN).enumerate() {
        let next = byte_after(line, place);
        put_byte(text, last, *byte, next)?;
        last = *byte;
    }
    if line.len() > MOST_SHOWN {
        text.push(b" ..")?;
    }
    Ok(())
}

// The byte after a place, or a space at the end.
fn byte_after(line: &[u8], place: usize) -> u8 {
    match line.get(place.saturating_add(1)) {
        Some(next) => *next,
        None => b' ',
    }
}

// Writes a byte between two others. The ends of a line count as spaces.
fn put_byte(text: &mut Text, last: u8, byte: u8, next: u8) -> Result<(), AllocError> {
    match byte {
        b' ' if last == b' ' || next == b' ' => text.push(b"<SPACE>"),
        b'\t' => text.push(b"<TAB>"),
        b'\r' => text.push(b"<CR>"),
        b'\n' => text.push(b"<LF>"),
        b' '..=b'~' => text.push(&[byte]),
        _ => put_code(text, byte),
    }
}

fn put_code(text: &mut Text, byte: u8) -> Result<(), AllocError> {
    text.push(&[b'<', digit_of(byte / 16), digit_of(byte % 16), b'>'])
}

// The digit of a number below 16.
fn digit_of(number: u8) -> u8 {
    match number {
        0 => b'0',
        1 => b'1',
        2 => b'2',
        3 => b'3',
        4 => b'4',
        5 => b'5',
        6 => b'6',
        7 => b'7',
        8 => b'8',
        9 => b'9',
        10 => b'A',
        11 => b'B',
        12 => b'C',
        13 => b'D',
        14 => b'E',
        _ => b'F',
    }
}
