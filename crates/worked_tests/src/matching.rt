//! Whether a text is as it has to be. A `*` in a line that is wanted stands for any text within a line, and a line `*`
//! for any number of lines.

use std::alloc::{AllocError, Global};

/// The first line of what is wanted, from 1, that what was written doesn't have in its place; none if the two agree.
pub fn difference(alloc: Global, wanted: &[u8], written: &[u8]) -> Result<Option<u64>, AllocError> {
    if wanted == written {
        return Ok(None);
    }
    let lines = lines_of(alloc, written)?;
    let mut places = first_of(alloc, lines.len())?;
    let mut number: u64 = 1;
    for line in wanted.split(|byte| *byte == b'\n') {
        pass_line(alloc, places.as_mut_slice(), line, lines.as_slice())?;
        if !places.as_slice().contains(&true) {
            return Ok(Some(number));
        }
        number = number.saturating_add(1);
    }
    Ok(if ends(places.as_slice()) {
        None
    } else {
        Some(number)
    })
}

fn lines_of(alloc: Global, text: &[u8]) -> Result<Vec<&[u8]>, AllocError> {
    let mut lines = Vec::new(alloc);
    for line in text.split(|byte| *byte == b'\n') {
        lines.push(line)?;
    }
    Ok(lines)
}

// A mark at each place before, between and after so many items: that before them is set.
fn first_of(alloc: Global, items: usize) -> Result<Vec<bool>, AllocError> {
    let mut places = vec![in alloc; false; items]?;
    places.insert(0, true)?;
    Ok(places)
}

// Whether the place after all items is set.
fn ends(places: &[bool]) -> bool {
    match places.last() {
        Some(last) => *last,
        None => false,
    }
}

// Sets the places to which a line that is wanted leads from those that are set.
fn pass_line(
    alloc: Global,
    places: &mut [bool],
    wanted: &[u8],
    lines: &[&[u8]],
) -> Result<(), AllocError> {
    if wanted == b"*".as_slice() {
        pass_any(places);
        return Ok(());
    }
    let mut before = false;
    for (place, line) in places.iter_mut().zip(lines) {
        let leads = *place && is_line(alloc, wanted, line)?;
        *place = before;
        before = leads;
    }
    set_last(places, before);
    Ok(())
}

// Sets all places after the first one that is set.
fn pass_any(places: &mut [bool]) {
    let mut before = false;
    for place in places.iter_mut() {
        before = before || *place;
        *place = before;
    }
}

fn set_last(places: &mut [bool], value: bool) {
    if let Some(last) = places.last_mut() {
        *last = value;
    }
}

// Whether a line is as it has to be.
fn is_line(alloc: Global, wanted: &[u8], written: &[u8]) -> Result<bool, AllocError> {
    if !wanted.contains(&b'*') {
        return Ok(wanted == written);
    }
    let mut places = first_of(alloc, written.len())?;
    for byte in wanted {
        if *byte == b'*' {
            pass_any(places.as_mut_slice());
        } else {
            pass_byte(places.as_mut_slice(), *byte, written);
        }
    }
    Ok(ends(places.as_slice()))
}

fn pass_byte(places: &mut [bool], wanted: u8, written: &[u8]) {
    let mut before = false;
    for (place, byte) in places.iter_mut().zip(written) {
        let leads = *place && *byte == wanted;
        *place = before;
        before = leads;
    }
    set_last(places, before);
}
