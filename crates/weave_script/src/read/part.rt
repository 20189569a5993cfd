//! The lines of a text, up to where its script ends.
ghost use Rattle.std.specs.Prelude.{◌≡◌, ◌≤◌, ◌<◌, ◌^◌, ◌+◌, map, take, length, IfOk, OnOk};
ghost use Rattle.weave_data.specs.Limits.{most_bytes};
ghost use Rattle.weave_text.specs.Cutting.{lines_of, words_of, is_skipped};
ghost use Rattle.weave_script.specs.Indexed.{IsReaderReady};
ghost use Rattle.weave_script.specs.Parts.{GivesPart, TakesLine};
ghost use Rattle.weave_script.specs.ReadText.{is_open, is_report, read_on, read_part};
ghost use Rattle.weave_script.specs.Reading.{start};

use crate::fault::{Cause, LineFault, ScriptFault};
use crate::read::lines::{Reader, after_line, start};
use crate::read::partial_script::Place;
use std::alloc::{AllocError, Global};
use weave_data::MOST_BYTES;
use weave_text::{Pieces, first_line, is, is_skipped};

/// No line of the grammar has this many words, so the words after them aren't looked at.
const MOST_WORDS: usize = 12;

/// How far a text has been read: the script so far, the number of the next line, and what is left.
#[derive(Drop)]
pub(crate) struct Part<'a> {
    pub(crate) reader: Reader,
    pub(crate) line: u32,
    pub(crate) left: &'a [u8],
}

/// Reads a text to its end, or, if a report is to follow, to the first line of that.
pub(crate) fn read_part(alloc: Global, report: bool, bytes: &[u8]) -> Result<Part<'_>, ScriptFault>
    ensures part { GivesPart result (read_part report bytes.now) }
    ensures from_one { IfOk result (λ part. 1 ≤ part.line) }
    ensures room { IfOk result (λ part. part.line + length part.left.now ≤ most_bytes + 1) }
{
    if bytes.len() > MOST_BYTES {
        return Err(ScriptFault::Refused {
            line: 0,
            cause: Cause::TooLong,
        });
    }
    read_on(alloc, report, bytes)
}

fn read_on(alloc: Global, report: bool, bytes: &[u8]) -> Result<Part<'_>, ScriptFault>
    requires { length bytes.now ≤ MOST_BYTES }
    ensures part { GivesPart result (read_on report 1 start (lines_of bytes.now)) }
    ensures from_one { IfOk result (λ part. 1 ≤ part.line) }
    ensures room { IfOk result (λ part. part.line + length part.left.now ≤ most_bytes + 1) }
{
    let mut reader = start(alloc);
    let mut words = Vec::new(alloc);
    let mut line = 1;
    let mut left = bytes;
    while let Some((first, rest)) = first_line(left) {
        if !is_skipped(first) {
            match take(alloc, report, &mut reader, &mut words, first) {
                Ok(Taken::Line) => {}
                Ok(Taken::Nothing) => return Ok(Part { reader, line, left }),
                Err(LineFault::Refused(cause)) => return Err(ScriptFault::Refused { line, cause }),
                Err(LineFault::Memory) => return Err(ScriptFault::Memory),
            }
        }
        line += 1;
        left = rest;
    }
    Ok(Part { reader, line, left })
}

/// What a line was taken as.
#[derive(Clone, Copy)]
pub(crate) enum Taken {
    /// It is one of the script.
    Line,
    /// It is the first one of a report.
    Nothing,
}

fn take<'a>(
    alloc: Global,
    report: bool,
    reader: &mut Reader,
    words: &mut Vec<&'a [u8]>,
    line: &'a [u8],
) -> Result<Taken, LineFault>
    requires { IsReaderReady reader.old }
    ensures { TakesLine report reader.old.reading (words_of line.now) reader.new result }
{
    cut(words, line)?;
    take_words(alloc, report, reader, words)
}

// Puts the first words of a line in the place of what was there, so that all lines use the same memory.
fn cut<'a>(words: &mut Vec<&'a [u8]>, line: &'a [u8]) -> Result<(), AllocError>
    ensures { OnOk result (map (λ word. word.now) words.new.items ≡ take MOST_WORDS (words_of line.now)) }
{
    words.clear();
    words.extend(Pieces::words(line).take(MOST_WORDS))
}

fn take_words(
    alloc: Global,
    report: bool,
    reader: &mut Reader,
    words: &[&[u8]],
) -> Result<Taken, LineFault>
    requires { IsReaderReady reader.old }
    ensures { TakesLine report reader.old.reading (map (λ word. word.now) words.now) reader.new result }
{
    if report && is_open(&reader.reading.place) && is_report(words) {
        return Ok(Taken::Nothing);
    }
    match after_line(alloc, reader, words) {
        Ok(()) => Ok(Taken::Line),
        Err(fault) => Err(fault),
    }
}

fn is_report(words: &[&[u8]]) -> bool
    ensures { result ≡ is_report (map (λ word. word.now) words.now) }
{
    match words {
        [] => false,
        [word, ..] => is(word, b"report"),
    }
}

fn is_open(place: &Place) -> bool
    ensures { result ≡ is_open place.now }
{
    match place {
        Place::Between | Place::Behind { .. } => true,
        Place::Start | Place::Inside { .. } => false,
    }
}
