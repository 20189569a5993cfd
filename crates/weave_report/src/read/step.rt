//! Answers of steps.
ghost use Rattle.std.specs.Prelude.{◌≡◌, [], ◌∷◌};
ghost use Rattle.weave_report.specs.ReadAnswers.{GivesExactly};
ghost use Rattle.weave_report.specs.Reading.{did_in};
ghost use Rattle.weave_report.specs.ReadingStates.{bare_answer};

use crate::fault::{LineFault, ReportCause};
use crate::read::fields::{name_in, small_number_in, this_number_in};
use report_rules::StepAnswer;
use weave_text::{Pieces, is};

/// A step's answer, from the words after `did`, if the step has this number.
pub(crate) fn did_in(number: u64, mut words: Pieces) -> Result<StepAnswer, LineFault>
    ensures { GivesExactly result (did_in number words.entry) }
{
    let Some(place) = words.next() else {
        return Err(LineFault::Refused(ReportCause::Line));
    };
    let Some(word) = words.next() else {
        return Err(LineFault::Refused(ReportCause::Line));
    };
    let Some(first) = words.next() else {
        return bare_in(number, place, word);
    };
    let Some(second) = words.next() else {
        return waits_in(number, place, word, first);
    };
    if let Some(_) = words.next() {
        return Err(LineFault::Refused(ReportCause::Line));
    }
    again_in(number, place, word, first, second)
}

fn bare_in(number: u64, place: &[u8], word: &[u8]) -> Result<StepAnswer, LineFault>
    ensures { GivesExactly result (did_in number (place.now ∷ word.now ∷ [])) }
{
    let Some(answer) = bare_answer(word) else {
        return Err(LineFault::Refused(ReportCause::Line));
    };
    this_number_in(number, place)?;
    Ok(answer)
}

fn waits_in(number: u64, place: &[u8], word: &[u8], vertex: &[u8]) -> Result<StepAnswer, LineFault>
    ensures { GivesExactly result (did_in number (place.now ∷ word.now ∷ vertex.now ∷ [])) }
{
    if !is(word, b"waits") {
        return Err(LineFault::Refused(ReportCause::Line));
    }
    this_number_in(number, place)?;
    let vertex = name_in(vertex)?;
    Ok(StepAnswer::Waits { vertex })
}

fn again_in(
    number: u64,
    place: &[u8],
    word: &[u8],
    shard: &[u8],
    gate: &[u8],
) -> Result<StepAnswer, LineFault>
    ensures { GivesExactly result (did_in number (place.now ∷ word.now ∷ shard.now ∷ gate.now ∷ [])) }
{
    if !is(word, b"again") {
        return Err(LineFault::Refused(ReportCause::Line));
    }
    this_number_in(number, place)?;
    let shard = small_number_in(shard)?;
    let gate = small_number_in(gate)?;
    Ok(StepAnswer::Again { shard, gate })
}

// The step's answer that is one word.
fn bare_answer(word: &[u8]) -> Option<StepAnswer>
    ensures { result ≡ bare_answer word.now }
{
    if is(word, b"ok") {
        Some(StepAnswer::Ok)
    } else if is(word, b"twice") {
        Some(StepAnswer::Twice)
    } else if is(word, b"early") {
        Some(StepAnswer::Early)
    } else if is(word, b"busy") {
        Some(StepAnswer::Busy)
    } else if is(word, b"idle") {
        Some(StepAnswer::Idle)
    } else if is(word, b"old") {
        Some(StepAnswer::Old)
    } else if is(word, b"unknown") {
        Some(StepAnswer::Unknown)
    } else if is(word, b"repeat") {
        Some(StepAnswer::Repeat)
    } else if is(word, b"empty") {
        Some(StepAnswer::Empty)
    } else {
        None
    }
}
