//! Fields of lines.
ghost use Rattle.std.specs.Prelude.{◌≡◌, []};
ghost use Rattle.weave_report.specs.ReadAnswers.{Gives, GivesExactly};
ghost use Rattle.weave_report.specs.ReadingFields.{name_in, read_names, names_from, read_number, reason_in, small_number_in, this_number_in};

use crate::fault::{LineFault, ReportCause};
use graph_ops::{Name, Reason};
use std::alloc::Global;
use weave_data::Items;
use weave_text::{Pieces, is, number};

/// A name.
pub(crate) fn name_in(word: &[u8]) -> Result<Name, LineFault>
    ensures { GivesExactly result (name_in word.now) }
{
    match Name::parse(word) {
        Some(name) => Ok(name),
        None => Err(LineFault::Refused(ReportCause::Name)),
    }
}

/// Names.
pub(crate) fn names_in(alloc: Global, words: Pieces) -> Result<Items<Name>, LineFault>
    ensures { Gives result (read_names words.entry) }
{
    let mut names = Items::new(alloc);
    for word in words {
        names.push(name_in(word)?)?;
    }
    Ok(names)
}

/// A number of 64 bits.
pub(crate) fn number_in(word: &[u8]) -> Result<u64, LineFault>
    ensures { GivesExactly result (read_number word.now) }
{
    match number(word) {
        Some(number) => Ok(number),
        None => Err(LineFault::Refused(ReportCause::Number)),
    }
}

/// A number of 32 bits.
pub(crate) fn small_number_in(word: &[u8]) -> Result<u32, LineFault>
    ensures { GivesExactly result (small_number_in word.now) }
{
    let number = number_in(word)?;
    if number > u64::from(u32::MAX) {
        return Err(LineFault::Refused(ReportCause::Number));
    }
    Ok(number as u32)
}

/// The word that is to be this number.
pub(crate) fn this_number_in(wanted: u64, word: &[u8]) -> Result<u64, LineFault>
    ensures { GivesExactly result (this_number_in wanted word.now) }
{
    if number(word) == Some(wanted) {
        Ok(wanted)
    } else {
        Err(LineFault::Refused(ReportCause::Number))
    }
}

/// A reason.
pub(crate) fn reason_in(word: &[u8]) -> Result<Reason, LineFault>
    ensures { GivesExactly result (reason_in word.now) }
{
    if is(word, b"exists") {
        Ok(Reason::Exists)
    } else if is(word, b"missing") {
        Ok(Reason::Missing)
    } else if is(word, b"no_key") {
        Ok(Reason::NoKey)
    } else if is(word, b"edge_exists") {
        Ok(Reason::EdgeExists)
    } else if is(word, b"no_edge") {
        Ok(Reason::NoEdge)
    } else if is(word, b"full") {
        Ok(Reason::Full)
    } else if is(word, b"no_target") {
        Ok(Reason::NoTarget)
    } else {
        Err(LineFault::Refused(ReportCause::Line))
    }
}
