//! The words of a program's answer.

use explain_lines::word_at;
use weave_data::Name;
use weave_text::{Pieces, is, number};

/// What is wrong with a program's answer.
#[derive(Clone, Copy)]
pub(crate) enum Misfit<'a> {
    /// A word may not be where it is.
    Word(&'a [u8]),
    /// A price doesn't come after another one.
    Order { price: &'a [u8], last: &'a [u8] },
    /// A price is of the vertex of another one.
    Twice { price: &'a [u8], last: &'a [u8] },
}

/// The first word of a program's answer that may not be where it is: in a list of vertices, in a walk, or among the
/// prices. `line` is the reply.
pub(crate) fn first_misfit(line: &[u8]) -> Option<Misfit<'_>> {
    match word_at(line, 4)? {
        b"found" | b"path" => first_no_name(line),
        b"price" => first_misfit_of_price(line),
        _ => None,
    }
}

// The first word after the answer's first one that is no name.
fn first_no_name(line: &[u8]) -> Option<Misfit<'_>> {
    for word in Pieces::words(line).skip(5) {
        if !is_name(word) {
            return Some(Misfit::Word(word));
        }
    }
    None
}

// The first word of a total, a walk and prices that may not be where it is.
fn first_misfit_of_price(line: &[u8]) -> Option<Misfit<'_>> {
    let total = word_at(line, 5)?;
    let is_none = is(total, b"none");
    if !is_none && !is_digits(total) {
        return Some(Misfit::Word(total));
    }
    let mut is_priced = false;
    let mut last = b"".as_slice();
    for word in Pieces::words(line).skip(6) {
        if is_priced {
            let fault = fault_of_price(word, last);
            if fault.is_some() {
                return fault;
            }
            last = word;
        } else if is(word, b";") {
            is_priced = true;
        } else if is_none || !is_name(word) {
            return Some(Misfit::Word(word));
        }
    }
    None
}

// What is wrong with a price after another one.
fn fault_of_price<'a>(price: &'a [u8], last: &'a [u8]) -> Option<Misfit<'a>> {
    if !is_price(price) {
        return Some(Misfit::Word(price));
    }
    let vertex = vertex_of(price);
    if is(vertex, vertex_of(last)) {
        return Some(Misfit::Twice { price, last });
    }
    if vertex < vertex_of(last) {
        return Some(Misfit::Order { price, last });
    }
    None
}

// Whether a word is VERTEX=PRICE.
fn is_price(word: &[u8]) -> bool {
    let mut parts = Pieces::new(b'=', word);
    match (parts.next(), parts.next(), parts.next()) {
        (Some(vertex), Some(price), None) => is_name(vertex) && is_digits(price),
        _ => false,
    }
}

fn vertex_of(word: &[u8]) -> &[u8] {
    Pieces::new(b'=', word).next().unwrap_or(b"")
}

fn is_name(word: &[u8]) -> bool {
    Name::parse(word).is_some()
}

// Whether a word has the form of a number; prices have more bits than other numbers.
fn is_digits(word: &[u8]) -> bool {
    number(word).is_some()
        || (word.iter().all(|byte| b'0' <= *byte && *byte <= b'9')
            && !word.starts_with(b"0")
            && !word.is_empty())
}
