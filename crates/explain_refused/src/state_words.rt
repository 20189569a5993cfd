//! Items of a record.

use explain_lines::{Part, say_line};
use std::alloc::AllocError;
use weave_data::Name;
use weave_text::{Pieces, Text};

// What is wrong with an item of a record.
#[derive(Clone, Copy)]
enum ItemFault<'a> {
    /// It has neither = nor >.
    Form,
    /// A tag of it has no =.
    Tag(&'a [u8]),
    /// A part of it is no name.
    Name(&'a [u8]),
    /// It doesn't come after the item before it.
    Place,
    /// A tag of it doesn't come after the tag before it.
    TagPlace(&'a [u8]),
}

/// Says what items a record has, and what is wrong with the first word of the line, after this many, that is no item or
/// not in its place.
pub(crate) fn state_words(text: &mut Text, line: &[u8], before: usize) -> Result<(), AllocError> {
    say_line(text, ITEMS, &[])?;
    let mut last = b"".as_slice();
    let mut edges = false;
    for item in Pieces::words(line).skip(before) {
        if let Some(fault) = fault_of(item, last, edges) {
            return fault_words(text, item, last, fault);
        }
        edges = is_edge(item);
        last = item;
    }
    Ok(())
}

const ITEMS: &str =
    "The items of a record: KEY=VALUE for each property, in byte order of the keys, each once; then \
    EDGE>VERTEX for each edge, in byte order of the edges, each once, with ,KEY=VALUE for each of its tags in byte \
    order.";

fn fault_words(
    text: &mut Text,
    item: &[u8],
    last: &[u8],
    fault: ItemFault,
) -> Result<(), AllocError> {
    let (form, part) = match fault {
        ItemFault::Form => ("`%` isn't an item: it has neither = nor >.", item),
        ItemFault::Tag(tag) => ("In the item `%` the tag `%` has no =.", tag),
        ItemFault::Name(part) => (
            "In the item `%` the part `%` isn't a name: a name has 1 to 32 letters of a-z, 0-9 and _.",
            part,
        ),
        ItemFault::Place => ("The item `%` may not come after `%`.", last),
        ItemFault::TagPlace(tag) => (
            "In the item `%` the tag `%` may not come after the tag before it.",
            tag,
        ),
    };
    say_line(text, form, &[Part::Shown(item), Part::Shown(part)])
}

// What is wrong with an item after another one, which is of an edge or not.
fn fault_of<'a>(item: &'a [u8], last: &[u8], edges: bool) -> Option<ItemFault<'a>> {
    let key = key_of(item);
    let is_edge = is_edge(item);
    if key.len() == item.len() {
        return Some(ItemFault::Form);
    }
    if !is_name(key) {
        return Some(ItemFault::Name(key));
    }
    let value = after(item, key);
    let fault = if is_edge {
        edge_fault(value)
    } else {
        name_fault(value)
    };
    if fault.is_none() && ((edges && !is_edge) || (edges == is_edge && key <= key_of(last))) {
        return Some(ItemFault::Place);
    }
    fault
}

// What is wrong with an edge's target and its tags.
fn edge_fault(value: &[u8]) -> Option<ItemFault<'_>> {
    let mut is_target = true;
    let mut last = b"".as_slice();
    for piece in Pieces::new(b',', value) {
        let fault = if is_target {
            name_fault(piece)
        } else {
            tag_fault(piece, last)
        };
        if fault.is_some() {
            return fault;
        }
        last = if is_target { b"" } else { key_of(piece) };
        is_target = false;
    }
    None
}

// What is wrong with a tag after the tag of another key.
fn tag_fault<'a>(tag: &'a [u8], last: &[u8]) -> Option<ItemFault<'a>> {
    let key = key_of(tag);
    if tag.get(key.len()).copied() != Some(b'=') {
        return Some(ItemFault::Tag(tag));
    }
    if !is_name(key) {
        return Some(ItemFault::Name(key));
    }
    let fault = name_fault(after(tag, key));
    if fault.is_none() && key <= last {
        return Some(ItemFault::TagPlace(tag));
    }
    fault
}

fn name_fault(word: &[u8]) -> Option<ItemFault<'_>> {
    if is_name(word) {
        return None;
    }
    Some(ItemFault::Name(word))
}

fn is_name(word: &[u8]) -> bool {
    Name::parse(word).is_some()
}

// Whether an item is that of an edge.
fn is_edge(item: &[u8]) -> bool {
    item.get(key_of(item).len()).copied() == Some(b'>')
}

// What is before the first `=` or `>`, or all.
fn key_of(item: &[u8]) -> &[u8] {
    match item.iter().position(|byte| *byte == b'=' || *byte == b'>') {
        Some(end) => item.get(..end).unwrap_or(item),
        None => item,
    }
}

// What is after a key and its sign.
fn after<'a>(item: &'a [u8], key: &[u8]) -> &'a [u8] {
    item.get(key.len().saturating_add(1)..).unwrap_or(b"")
}
