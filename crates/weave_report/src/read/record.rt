//! Records.
ghost use Rattle.std.specs.Prelude.{◌≡◌, [], map, option_map, position, Some};
ghost use Rattle.weave_report.specs.ReadAnswers.{Changes, Gives, GivesExactly};
ghost use Rattle.weave_report.specs.Marks.{cut_first, is_equals, is_item_mark};
ghost use Rattle.weave_report.specs.ReadingStates.{edge_of, empty_record, item_in, item_of, items_in, key_and_value, tag_in, tags_in, with_item_read, with_last, with_property, goes_last};

use crate::fault::{LineFault, ReportCause};
use crate::read::fields::name_in;
use crate::read::parts::Item;
use graph_ops::{Edge, Name, Record};
use std::alloc::Global;
use weave_data::NameMap;
use weave_text::Pieces;

/// The record of these items.
pub(crate) fn items_in(alloc: Global, words: Pieces) -> Result<Record, LineFault>
    ensures { Gives result (items_in empty_record words.entry) }
{
    let mut held = Record {
        props: NameMap::new(alloc),
        edges: NameMap::new(alloc),
    };
    for word in words {
        let item = item_in(alloc, word)?;
        with_item(&mut held, item)?;
    }
    Ok(held)
}

// Puts an item into a record: no property after an edge, and each in the order of keys.
fn with_item(held: &mut Record, item: Item) -> Result<(), LineFault>
    ensures { Changes result held.new (with_item_read held.old item) }
{
    match item {
        Item::Property { key, value } => with_property(held, key, value),
        Item::Link { name, edge } => {
            let edges = &mut held.edges;
            with_last(edges, name, edge)
        }
    }
}

fn with_property(held: &mut Record, key: Name, value: Name) -> Result<(), LineFault>
    ensures { Changes result held.new (with_property held.old key value held.old.edges) }
{
    if held.edges.len() > 0 {
        return Err(LineFault::Refused(ReportCause::Line));
    }
    let props = &mut held.props;
    with_last(props, key, value)
}

// Puts a value at a key that is above the keys before it.
fn with_last<T: Drop>(pairs: &mut NameMap<T>, key: Name, value: T) -> Result<(), LineFault>
    ensures { Changes result pairs.new (with_last pairs.old key value) }
{
    if !goes_last(pairs, key) {
        return Err(LineFault::Refused(ReportCause::Line));
    }
    pairs.put(key, value)?;
    Ok(())
}

// Whether a key is above all that are there.
fn goes_last<T>(pairs: &NameMap<T>, key: Name) -> bool
    ensures { result ≡ goes_last key pairs.now }
{
    match pairs.as_slice().last() {
        Some((last, _)) => *last < key,
        None => true,
    }
}

// An item of a record.
fn item_in(alloc: Global, word: &[u8]) -> Result<Item, LineFault>
    ensures { Gives result (item_in word.now) }
{
    match cut_item(word) {
        Some((before, mark, behind)) => item_of(alloc, before, mark, behind),
        None => Err(LineFault::Refused(ReportCause::Line)),
    }
}

// An item that is cut at this mark.
fn item_of(alloc: Global, before: &[u8], mark: u8, behind: &[u8]) -> Result<Item, LineFault>
    ensures { Gives result (item_of (Some (before.now, mark, behind.now))) }
{
    if mark == b'=' {
        let (key, value) = pair_in(before, behind)?;
        return Ok(Item::Property { key, value });
    }
    let name = name_in(before)?;
    let edge = edge_of(alloc, Pieces::new(b',', behind))?;
    Ok(Item::Link { name, edge })
}

// An item, cut at its mark.
fn cut_item(word: &[u8]) -> Option<(&[u8], u8, &[u8])>
    ensures { option_map (λ cut. (cut.0.now, cut.1, cut.2.now)) result ≡ cut_first is_item_mark word.now }
{
    match item_mark(word) {
        Some(at) => Some((&word[..at], word[at], &word[at + 1..])),
        None => None,
    }
}

// The place of an item's mark.
fn item_mark(word: &[u8]) -> Option<usize>
    ensures { result ≡ position is_item_mark word.now }
{
    word.iter().position(|byte| *byte == b'=' || *byte == b'>')
}

// An edge: its target, and its tags.
fn edge_of(alloc: Global, mut words: Pieces) -> Result<Edge, LineFault>
    ensures { Gives result (edge_of words.entry) }
{
    let Some(target) = words.next() else {
        return Err(LineFault::Refused(ReportCause::Name));
    };
    let target = name_in(target)?;
    let tags = tags_in(alloc, words)?;
    Ok(Edge { target, tags })
}

fn tags_in(alloc: Global, words: Pieces) -> Result<NameMap<Name>, LineFault>
    ensures { Gives result (tags_in [] words.entry) }
{
    let mut tags = NameMap::new(alloc);
    for word in words {
        let (key, value) = tag_in(word)?;
        with_last(&mut tags, key, value)?;
    }
    Ok(tags)
}

// A tag.
fn tag_in(word: &[u8]) -> Result<(Name, Name), LineFault>
    ensures { GivesExactly result (tag_in word.now) }
{
    match cut_tag(word) {
        Some((key, _, value)) => pair_in(key, value),
        None => Err(LineFault::Refused(ReportCause::Line)),
    }
}

/// A word, cut at its first `=`.
pub(crate) fn cut_tag(word: &[u8]) -> Option<(&[u8], u8, &[u8])>
    ensures { option_map (λ cut. (cut.0.now, cut.1, cut.2.now)) result ≡ cut_first is_equals word.now }
{
    match equals_sign(word) {
        Some(at) => Some((&word[..at], word[at], &word[at + 1..])),
        None => None,
    }
}

// The place of a tag's mark.
fn equals_sign(word: &[u8]) -> Option<usize>
    ensures { result ≡ position is_equals word.now }
{
    word.iter().position(|byte| *byte == b'=')
}

// A key and its value.
fn pair_in(key: &[u8], value: &[u8]) -> Result<(Name, Name), LineFault>
    ensures { GivesExactly result (key_and_value key.now value.now) }
{
    let key = name_in(key)?;
    let value = name_in(value)?;
    Ok((key, value))
}
