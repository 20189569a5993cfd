//! Where the lines of an input are.

use std::alloc::{AllocError, Global};
use weave_text::{Pieces, is, is_skipped};

/// A line of the input, with its number from 1.
#[derive(Clone, Copy)]
pub struct Spot<'a> {
    pub line: u32,
    pub text: &'a [u8],
}

/// What may be at the next line.
#[derive(Clone, Copy, PartialEq, Eq)]
pub enum Place {
    /// The header of the script.
    Start,
    /// A request, a phase, the steps; or the report.
    Between,
    /// An operation of the last request, or its end.
    Inside,
    /// A step; or the report.
    Steps,
    /// A reply; or a pair or the order.
    Replies,
    /// A pair or the order.
    Pairs,
    /// The answer of a step, or the end of the report.
    Answers,
    /// Nothing.
    Ended,
}

/// The lines of an input that say which requests, replies and pairs there are.
#[derive(Drop)]
pub struct Spots<'a> {
    pub place: Place,
    pub header: Option<Spot<'a>>,
    pub requests: Vec<Spot<'a>>,
    /// The first line of the report.
    pub report: Option<Spot<'a>>,
    pub replies: Vec<Spot<'a>>,
    /// How many `got` lines follow the last reply.
    pub gots: u32,
    pub pairs: Vec<Spot<'a>>,
    pub order: Option<Spot<'a>>,
    /// How many answers of steps there are.
    pub dids: u32,
    /// How many lines there are up to where the walk ended.
    pub lines: u32,
}

/// The word of a line at a place, from 0.
pub fn word_at(line: &[u8], place: usize) -> Option<&[u8]> {
    Pieces::words(line).nth(place)
}

/// The first word of a line.
pub fn first_word(line: &[u8]) -> &[u8] {
    match word_at(line, 0) {
        Some(word) => word,
        None => b"",
    }
}

impl<'a> Spot<'a> {
    /// The name in the line of a request or a reply.
    pub fn name(&self) -> &'a [u8] {
        match word_at(self.text, 1) {
            Some(word) => word,
            None => b"",
        }
    }
}

/// Walks through the lines before the one with this number. They are accepted, so the first word of each says what it
/// is. A report is looked for only if one may follow the script.
pub fn walk<'a>(
    alloc: Global,
    input: &'a [u8],
    end: u32,
    with_report: bool,
) -> Result<Spots<'a>, AllocError> {
    let mut spots = no_spots(alloc);
    for text in Pieces::new(b'\n', input) {
        let line = spots.lines.saturating_add(1);
        if line >= end {
            return Ok(spots);
        }
        spots.lines = line;
        if !is_skipped(text) {
            note(&mut spots, Spot { line, text }, with_report)?;
        }
    }
    Ok(spots)
}

fn no_spots<'a>(alloc: Global) -> Spots<'a> {
    Spots {
        place: Place::Start,
        header: None,
        requests: Vec::new(alloc),
        report: None,
        replies: Vec::new(alloc),
        gots: 0,
        pairs: Vec::new(alloc),
        order: None,
        dids: 0,
        lines: 0,
    }
}

fn note<'a>(spots: &mut Spots<'a>, spot: Spot<'a>, with_report: bool) -> Result<(), AllocError> {
    match spots.place {
        Place::Start => {
            spots.header = Some(spot);
            spots.place = Place::Between;
            Ok(())
        }
        Place::Between => note_item(spots, spot, with_report),
        Place::Inside => {
            if is(first_word(spot.text), b"end") {
                spots.place = Place::Between;
            }
            Ok(())
        }
        Place::Steps => {
            note_step(spots, spot, with_report);
            Ok(())
        }
        Place::Replies | Place::Pairs => note_reply(spots, spot),
        Place::Answers => {
            note_answer(spots, spot);
            Ok(())
        }
        Place::Ended => Ok(()),
    }
}

fn note_item<'a>(
    spots: &mut Spots<'a>,
    spot: Spot<'a>,
    with_report: bool,
) -> Result<(), AllocError> {
    let word = first_word(spot.text);
    if is(word, b"tx") {
        spots.place = Place::Inside;
        spots.requests.push(spot)?;
    } else if is(word, b"prog") {
        spots.requests.push(spot)?;
    } else if is(word, b"steps") {
        spots.place = Place::Steps;
    } else {
        note_step(spots, spot, with_report);
    }
    Ok(())
}

// A step, or the first line of the report.
fn note_step<'a>(spots: &mut Spots<'a>, spot: Spot<'a>, with_report: bool) {
    if with_report && is(first_word(spot.text), b"report") {
        spots.place = Place::Replies;
        spots.report = Some(spot);
    }
}

fn note_reply<'a>(spots: &mut Spots<'a>, spot: Spot<'a>) -> Result<(), AllocError> {
    let word = first_word(spot.text);
    if is(word, b"tx") || is(word, b"prog") {
        spots.gots = 0;
        spots.replies.push(spot)?;
    } else if is(word, b"got") {
        spots.gots = spots.gots.saturating_add(1);
    } else if is(word, b"settled") {
        spots.place = Place::Pairs;
        spots.pairs.push(spot)?;
    } else if is(word, b"order") {
        spots.place = Place::Answers;
        spots.order = Some(spot);
    }
    Ok(())
}

// The answer of a step, or the end of the report.
fn note_answer(spots: &mut Spots, spot: Spot) {
    if is(first_word(spot.text), b"end") {
        spots.place = Place::Ended;
    } else {
        spots.dids = spots.dids.saturating_add(1);
    }
}

/// The line with this number, if there is one.
pub fn line_of(input: &[u8], number: u32) -> Option<&[u8]> {
    let mut line: u32 = 0;
    for text in Pieces::new(b'\n', input) {
        line = line.saturating_add(1);
        if line == number {
            return Some(text);
        }
    }
    None
}

/// The line that is this many lines after the one with this number, if skipped lines aren't counted.
pub fn line_after(input: &[u8], number: u32, count: u64) -> Option<Spot<'_>> {
    let mut line: u32 = 0;
    let mut passed: u64 = 0;
    for text in Pieces::new(b'\n', input) {
        line = line.saturating_add(1);
        if line > number && !is_skipped(text) {
            passed = passed.saturating_add(1);
            if passed == count {
                return Some(Spot { line, text });
            }
        }
    }
    None
}

/// The first of these lines whose name is this one.
pub fn named<'a>(spots: &[Spot<'a>], name: &[u8]) -> Option<Spot<'a>> {
    for spot in spots {
        if is(spot.name(), name) {
            return Some(*spot);
        }
    }
    None
}
