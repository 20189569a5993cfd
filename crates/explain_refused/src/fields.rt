//! Fields of lines: what each is to be, and the first that isn't.

use explain_lines::{Spots, word_at};
use weave_data::Name;
use weave_text::{Numeral, Pieces, is, number, number_up_to};

/// What a field is to be.
#[derive(Clone, Copy, PartialEq, Eq)]
pub(crate) enum Kind {
    /// Anything, or what is looked at by itself.
    Other,
    Name,
    /// The name of a request.
    Request,
    /// A number from `least` to `most`.
    Number { least: u64, most: u64 },
    Stamp,
}

/// A field that isn't what it is to be.
#[derive(Clone, Copy)]
pub(crate) struct BadField<'a> {
    /// Its place in the line, from 1.
    pub(crate) place: u64,
    pub(crate) word: &'a [u8],
    /// The word of the form.
    pub(crate) wanted: &'static [u8],
    pub(crate) kind: Kind,
}

/// The numbers of gatekeepers and shards that a script says.
#[derive(Clone, Copy)]
pub(crate) struct Sizes {
    pub(crate) gates: u64,
    pub(crate) shards: u64,
}

/// The numbers in the header.
pub(crate) fn sizes_of(spots: &Spots) -> Sizes {
    let Some(header) = spots.header else {
        return Sizes {
            gates: 0,
            shards: 0,
        };
    };
    Sizes {
        gates: number_at(header.text, 2),
        shards: number_at(header.text, 3),
    }
}

// The number at a place of a line, or 0.
fn number_at(line: &[u8], place: usize) -> u64 {
    match word_at(line, place) {
        Some(word) => number(word).unwrap_or(0),
        None => 0,
    }
}

/// What the field is to be for which a word of a form stands.
pub(crate) fn kind_of(wanted: &[u8], sizes: Sizes) -> Kind {
    match wanted {
        b"NAME" | b"VERTEX" | b"EDGE" | b"KEY" | b"VALUE" => Kind::Name,
        b"REQUEST" | b"REQUESTS" => Kind::Request,
        b"STAMP" => Kind::Stamp,
        _ => number_kind_of(wanted, sizes),
    }
}

fn number_kind_of(wanted: &[u8], sizes: Sizes) -> Kind {
    match wanted {
        b"SESSION" => within(0, 63),
        b"GATEKEEPER" => within(0, sizes.gates.saturating_sub(1)),
        b"SHARD" => within(0, sizes.shards.saturating_sub(1)),
        b"BOUND" => within(0, 1_000),
        b"NUMBER" => within(1, 100_000),
        b"EPOCH" => within(1, 1_000_000),
        b"COUNT" => within(0, u64::MAX),
        b"GATEKEEPERS" => within(1, 8),
        b"SHARDS" => within(1, 16),
        b"VERSION" => within(1, 2),
        _ => Kind::Other,
    }
}

fn within(least: u64, most: u64) -> Kind {
    Kind::Number { least, most }
}

/// The first field of a line of this form that isn't what it is to be. Whether a name is that of a request isn't looked
/// at.
pub(crate) fn first_bad<'a>(
    form: &'static [u8],
    line: &'a [u8],
    sizes: Sizes,
) -> Option<BadField<'a>> {
    let mut fields = Pieces::words(form);
    let mut wanted = b"".as_slice();
    let mut place: u64 = 0;
    for word in Pieces::words(line) {
        place = place.saturating_add(1);
        wanted = next_field(wanted, fields.next())?;
        let kind = kind_of(wanted, sizes);
        if !has_kind(kind, word, sizes) {
            return Some(BadField {
                place,
                word,
                wanted,
                kind,
            });
        }
    }
    None
}

// The field after another one: the last names of requests go on to the end of the line.
fn next_field(last: &'static [u8], next: Option<&'static [u8]>) -> Option<&'static [u8]> {
    if next.is_none() && is(last, b"REQUESTS") {
        return Some(last);
    }
    next
}

/// Whether a word is what a field of this kind has to be.
pub(crate) fn has_kind(kind: Kind, word: &[u8], sizes: Sizes) -> bool {
    match kind {
        Kind::Other => true,
        Kind::Name | Kind::Request => Name::parse(word).is_some(),
        Kind::Number { least, most } => match number_up_to(most, word) {
            Numeral::Number(value) => least <= value,
            _ => false,
        },
        Kind::Stamp => is_stamp(word, sizes.gates),
    }
}

/// Whether a word is a stamp in a script of this many gatekeepers.
pub(crate) fn is_stamp(word: &[u8], gates: u64) -> bool {
    let mut parts = Pieces::new(b':', word);
    match (parts.next(), parts.next(), parts.next(), parts.next()) {
        (Some(epoch), Some(home), Some(counts), None) => {
            is_number(epoch) && is_home(home, gates) && are_counts(counts, gates)
        }
        _ => false,
    }
}

fn is_number(word: &[u8]) -> bool {
    number(word).is_some()
}

fn is_home(word: &[u8], gates: u64) -> bool {
    match number(word) {
        Some(home) => home < gates,
        None => false,
    }
}

fn are_counts(words: &[u8], gates: u64) -> bool {
    count_of(words, b',') == gates && Pieces::new(b',', words).all(|word| is_number(word))
}

/// How many pieces there are between the bytes of a text that are this one.
pub(crate) fn count_of(text: &[u8], at: u8) -> u64 {
    let mut count: u64 = 0;
    for _ in Pieces::new(at, text) {
        count = count.saturating_add(1);
    }
    count
}

/// How many counts a stamp has; none if the word isn't cut as a stamp is.
pub(crate) fn counts_in(word: &[u8]) -> Option<u64> {
    let mut parts = Pieces::new(b':', word);
    let _epoch = parts.next()?;
    let _home = parts.next()?;
    let counts = parts.next()?;
    if parts.is_empty() {
        return Some(count_of(counts, b','));
    }
    None
}

/// The place of a fixed word of a form, from 1, that a line doesn't have there, and that word.
pub(crate) fn first_missing(form: &'static [u8], line: &[u8]) -> Option<(u64, &'static [u8])> {
    let mut words = Pieces::words(line);
    let mut place: u64 = 0;
    for wanted in Pieces::words(form) {
        let word = words.next()?;
        place = place.saturating_add(1);
        if crate::forms::is_fixed(wanted) && !is(word, wanted) {
            return Some((place, wanted));
        }
    }
    None
}
