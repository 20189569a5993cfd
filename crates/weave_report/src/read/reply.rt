//! The lines of replies.
ghost use Rattle.program_defs.specs.PlainAnswer.{is_price};
ghost use Rattle.std.specs.Prelude.{IsTrue, ◌≡◌, ◌&&◌, [], ◌∷◌, Some, codes, Err, if◌then◌else◌};
ghost use Rattle.std.specs.Str.{bytes_eq};
ghost use Rattle.weave_report.specs.ReadAnswers.{Gives, GivesExactly};
ghost use Rattle.weave_report.specs.declared.fault.ReportCause.TheVariants.{Line};
ghost use Rattle.weave_report.specs.ReadingReplies.{read_begun, committed_in, conflict_in, finished_by, finished_in, got_in, program_in, refused_in, transaction_in, unbegun_in, read_verdict};

use crate::fault::{LineFault, ReportCause};
use crate::read::fields::{name_in, number_in, reason_in, small_number_in, this_number_in};
use crate::read::named::{Named, any_named, gets_of, kind_named};
use crate::read::parts::{Commit, ReplyLine};
use crate::read::priced::{is_priced_form, priced_in};
use crate::read::stamp::stamp_in;
use crate::read::state::{answer_in, is_answer_form, is_state_form, state_in};
use graph_ops::Got;
use program_defs::Program;
use report_rules::{Reply, ReplyState};
use std::alloc::Global;
use weave_text::{Pieces, is};

/// A transaction's reply, from the words after `tx`.
pub(crate) fn transaction_in(
    alloc: Global,
    script: &Named,
    mut words: Pieces,
) -> Result<ReplyLine, LineFault>
    ensures { Gives result (transaction_in script.now words.entry) }
{
    let Some(name) = words.next() else {
        return Err(LineFault::Refused(ReportCause::Line));
    };
    let Some(stamp) = words.next() else {
        return Err(LineFault::Refused(ReportCause::Line));
    };
    let Some(state) = words.next() else {
        return unbegun_told(false, script, name, stamp);
    };
    verdict_in(alloc, script, name, stamp, state, words)
}

// A begun transaction's reply, from the word that names its state and the words after it.
fn verdict_in(
    alloc: Global,
    script: &Named,
    name: &[u8],
    stamp: &[u8],
    state: &[u8],
    mut more: Pieces,
) -> Result<ReplyLine, LineFault>
    ensures { Gives result (read_verdict script.now name.now stamp.now state.now more.entry) }
{
    let Some(first) = more.next() else {
        return begun_told(alloc, script, name, stamp, state);
    };
    let Some(second) = more.next() else {
        return commit_told(alloc, script, name, stamp, state, first);
    };
    let Some(third) = more.next() else {
        return conflict_told(alloc, script, name, stamp, state, first, second);
    };
    let Some(fourth) = more.next() else {
        return Err(LineFault::Refused(ReportCause::Line));
    };
    if let Some(_) = more.next() {
        return Err(LineFault::Refused(ReportCause::Line));
    }
    if !is_refusal(state, third) {
        return Err(LineFault::Refused(ReportCause::Line));
    }
    refused_in(alloc, script, name, stamp, first, second, fourth)
}

// If there is no stamp.
fn unbegun_told(
    program: bool,
    script: &Named,
    name: &[u8],
    state: &[u8],
) -> Result<ReplyLine, LineFault>
    ensures { GivesExactly result (if bytes_eq state.now (codes "unbegun")
        then unbegun_in program script.now name.now else Err Line) }
{
    if !is(state, b"unbegun") {
        return Err(LineFault::Refused(ReportCause::Line));
    }
    unbegun_in(program, script, name)
}

fn begun_told(
    alloc: Global,
    script: &Named,
    name: &[u8],
    stamp: &[u8],
    state: &[u8],
) -> Result<ReplyLine, LineFault>
    ensures { Gives result (read_verdict script.now name.now stamp.now state.now []) }
{
    if !is(state, b"begun") {
        return Err(LineFault::Refused(ReportCause::Line));
    }
    begun_in(alloc, false, script, name, stamp)
}

fn commit_told(
    alloc: Global,
    script: &Named,
    name: &[u8],
    stamp: &[u8],
    state: &[u8],
    number: &[u8],
) -> Result<ReplyLine, LineFault>
    ensures { Gives result (read_verdict script.now name.now stamp.now state.now (number.now ∷ [])) }
{
    if !is(state, b"committed") {
        return Err(LineFault::Refused(ReportCause::Line));
    }
    committed_in(alloc, script, name, stamp, number)
}

fn conflict_told(
    alloc: Global,
    script: &Named,
    name: &[u8],
    stamp: &[u8],
    state: &[u8],
    vertex: &[u8],
    newer: &[u8],
) -> Result<ReplyLine, LineFault>
    ensures { Gives result (read_verdict script.now name.now stamp.now state.now (vertex.now ∷ newer.now ∷ [])) }
{
    if !is(state, b"conflict") {
        return Err(LineFault::Refused(ReportCause::Line));
    }
    conflict_in(alloc, script, name, stamp, vertex, newer)
}

// Whether these are the words of a refusal.
fn is_refusal(state: &[u8], word: &[u8]) -> bool
    ensures { result ≡ (bytes_eq state.now (codes "refused") && bytes_eq word.now (codes "at")) }
{
    is(state, b"refused") && is(word, b"at")
}

/// A program's reply, from the words after `prog`.
pub(crate) fn program_in(
    alloc: Global,
    script: &Named,
    mut words: Pieces,
) -> Result<ReplyLine, LineFault>
    ensures { Gives result (program_in script.now words.entry) }
{
    let Some(name) = words.next() else {
        return Err(LineFault::Refused(ReportCause::Line));
    };
    let Some(stamp) = words.next() else {
        return Err(LineFault::Refused(ReportCause::Line));
    };
    let Some(state) = words.next() else {
        return unbegun_told(true, script, name, stamp);
    };
    if is(state, b"done") {
        return finished_in(alloc, script, name, stamp, words);
    }
    if !(is(state, b"running") && words.is_empty()) {
        return Err(LineFault::Refused(ReportCause::Line));
    }
    begun_in(alloc, true, script, name, stamp)
}

fn unbegun_in(program: bool, script: &Named, name: &[u8]) -> Result<ReplyLine, LineFault>
    ensures { GivesExactly result (unbegun_in program script.now name.now) }
{
    let name = name_in(name)?;
    let request = kind_named(program, script, name)?;
    Ok(ReplyLine::Whole(Reply {
        request,
        stamp: None,
        state: ReplyState::Unbegun,
    }))
}

fn begun_in(
    alloc: Global,
    program: bool,
    script: &Named,
    name: &[u8],
    stamp: &[u8],
) -> Result<ReplyLine, LineFault>
    ensures { Gives result (read_begun program script.now name.now stamp.now) }
{
    let name = name_in(name)?;
    let stamp = stamp_in(alloc, script.gates(), stamp)?;
    let request = kind_named(program, script, name)?;
    Ok(ReplyLine::Whole(Reply {
        request,
        stamp: Some(stamp),
        state: ReplyState::Begun,
    }))
}

fn committed_in(
    alloc: Global,
    script: &Named,
    name: &[u8],
    stamp: &[u8],
    number: &[u8],
) -> Result<ReplyLine, LineFault>
    ensures { Gives result (committed_in script.now name.now stamp.now number.now) }
{
    let name = name_in(name)?;
    let stamp = stamp_in(alloc, script.gates(), stamp)?;
    let number = number_in(number)?;
    let request = kind_named(false, script, name)?;
    let gets = gets_of(alloc, script, request)?;
    Ok(ReplyLine::Committed(Commit {
        request,
        stamp,
        number,
        gets,
    }))
}

fn conflict_in(
    alloc: Global,
    script: &Named,
    name: &[u8],
    stamp: &[u8],
    vertex: &[u8],
    newer: &[u8],
) -> Result<ReplyLine, LineFault>
    ensures { Gives result (conflict_in script.now name.now stamp.now vertex.now newer.now) }
{
    let name = name_in(name)?;
    let stamp = stamp_in(alloc, script.gates(), stamp)?;
    let vertex = name_in(vertex)?;
    let newer = name_in(newer)?;
    let request = kind_named(false, script, name)?;
    let newer = any_named(script, newer)?;
    Ok(ReplyLine::Whole(Reply {
        request,
        stamp: Some(stamp),
        state: ReplyState::Conflict { vertex, newer },
    }))
}

fn refused_in(
    alloc: Global,
    script: &Named,
    name: &[u8],
    stamp: &[u8],
    op: &[u8],
    reason: &[u8],
    at: &[u8],
) -> Result<ReplyLine, LineFault>
    ensures { Gives result (refused_in script.now name.now stamp.now op.now reason.now at.now) }
{
    let name = name_in(name)?;
    let stamp = stamp_in(alloc, script.gates(), stamp)?;
    let op = small_number_in(op)?;
    let reason = reason_in(reason)?;
    let at = number_in(at)?;
    let request = kind_named(false, script, name)?;
    Ok(ReplyLine::Whole(Reply {
        request,
        stamp: Some(stamp),
        state: ReplyState::Refused { op, reason, at },
    }))
}

fn finished_in(
    alloc: Global,
    script: &Named,
    name: &[u8],
    stamp: &[u8],
    answer: Pieces,
) -> Result<ReplyLine, LineFault>
    ensures { Gives result (finished_in script.now name.now stamp.now answer.entry) }
{
    let name = name_in(name)?;
    match script.program(name) {
        Some((request, program)) => finished(alloc, script, request, &program, stamp, answer),
        None => {
            let _stamp = stamp_in(alloc, script.gates(), stamp)?;
            Err(LineFault::Refused(ReportCause::Request))
        }
    }
}

fn finished(
    alloc: Global,
    script: &Named,
    request: u32,
    program: &Program,
    stamp: &[u8],
    mut answer: Pieces,
) -> Result<ReplyLine, LineFault>
    ensures { Gives result (finished_by (Some (request, program.now)) script.now stamp.now answer.entry) }
{
    if program.is_price() {
        return priced(alloc, script, request, program, stamp, answer);
    }
    let Some(form) = answer.next() else {
        return Err(LineFault::Refused(ReportCause::Line));
    };
    if !is_answer_form(program, form, &answer) {
        return Err(LineFault::Refused(ReportCause::Line));
    }
    let stamp = stamp_in(alloc, script.gates(), stamp)?;
    let answer = answer_in(alloc, program, form, answer)?;
    Ok(ReplyLine::Whole(Reply {
        request,
        stamp: Some(stamp),
        state: ReplyState::Finished(answer),
    }))
}

// A finished `price`.
fn priced(
    alloc: Global,
    script: &Named,
    request: u32,
    program: &Program,
    stamp: &[u8],
    answer: Pieces,
) -> Result<ReplyLine, LineFault>
    requires { IsTrue (is_price program.now) }
    ensures { Gives result (finished_by (Some (request, program.now)) script.now stamp.now answer.entry) }
{
    let words: Vec<&[u8]> = answer.collect(alloc)?;
    if !is_priced_form(words.as_slice()) {
        return Err(LineFault::Refused(ReportCause::Line));
    }
    let stamp = stamp_in(alloc, script.gates(), stamp)?;
    let answer = priced_in(alloc, words.as_slice())?;
    Ok(ReplyLine::Whole(Reply {
        request,
        stamp: Some(stamp),
        state: ReplyState::Finished(answer),
    }))
}

/// What a `get` read, by its line, if it is to be this operation.
pub(crate) fn got_in(alloc: Global, op: u32, mut words: Pieces) -> Result<Got, LineFault>
    ensures { Gives result (got_in op words.entry) }
{
    let Some(word) = words.next() else {
        return Err(LineFault::Refused(ReportCause::Line));
    };
    let Some(number) = words.next() else {
        return Err(LineFault::Refused(ReportCause::Line));
    };
    let Some(form) = words.next() else {
        return Err(LineFault::Refused(ReportCause::Line));
    };
    if !(is(word, b"got") && is_state_form(form, &words)) {
        return Err(LineFault::Refused(ReportCause::Line));
    }
    this_number_in(u64::from(op), number)?;
    let state = state_in(alloc, form, words)?;
    Ok(Got { op, state })
}
