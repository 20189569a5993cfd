//! Lines at their places.
ghost use Rattle.std.specs.Prelude.{◌≡◌, [], ◌∷◌, Ok, IfOk};
ghost use Rattle.weave_report.specs.ReadAnswers.{Gives, GivesExactly};
ghost use Rattle.weave_report.specs.Reading.{after_answers, after_first, after_got, after_report_line, after_pairs, after_replies, behind_commit, behind_reply, next_get, order_in, pair_in, reading, with_answer, with_order, with_pair, with_reply_read};
ghost use Rattle.weave_report.specs.ReadingLists.{with_named};

use crate::fault::{LineFault, ReportCause};
use crate::read::fields::name_in;
use crate::read::named::{Named, any_named};
use crate::read::parts::{Commit, Place, Reading, ReplyLine};
use crate::read::reply::{got_in, program_in, transaction_in};
use crate::read::step::did_in;
use graph_ops::{Got, Name};
use report_rules::{Pair, Reply, ReplyState, Report, StepAnswer};
use std::alloc::{AllocError, Global};
use weave_data::Items;
use weave_text::{Pieces, is};

/// The reading after one more line.
pub(crate) fn after_line(
    alloc: Global,
    script: &Named,
    reading: Reading,
    words: Pieces,
) -> Result<Reading, LineFault>
    ensures { Gives result (after_report_line script.now reading words.entry) }
{
    let Reading { report, place } = reading;
    match place {
        Place::Start => after_first(report, words),
        Place::Replies => after_replies(alloc, script, report, words),
        Place::Gots { commit, answers } => after_got(alloc, report, commit, answers, words),
        Place::Pairs => after_pairs(alloc, script, report, words),
        Place::Answers => after_answers(report, words),
        Place::Ended => Err(LineFault::Refused(ReportCause::Line)),
    }
}

fn after_first(report: Report, mut words: Pieces) -> Result<Reading, LineFault>
    ensures { GivesExactly result (after_first report words.entry) }
{
    let Some(word) = words.next() else {
        return Err(LineFault::Refused(ReportCause::Line));
    };
    let Some(version) = words.next() else {
        return Err(LineFault::Refused(ReportCause::Line));
    };
    if let Some(_) = words.next() {
        return Err(LineFault::Refused(ReportCause::Line));
    }
    if !(is(word, b"report") && is(version, b"1")) {
        return Err(LineFault::Refused(ReportCause::Line));
    }
    Ok(Reading {
        report,
        place: Place::Replies,
    })
}

fn after_replies(
    alloc: Global,
    script: &Named,
    report: Report,
    mut words: Pieces,
) -> Result<Reading, LineFault>
    ensures { Gives result (after_replies script.now report words.entry) }
{
    let Some(word) = words.next() else {
        return Err(LineFault::Refused(ReportCause::Line));
    };
    if is(word, b"tx") {
        let line = transaction_in(alloc, script, words)?;
        return behind_reply(alloc, report, line);
    }
    if is(word, b"prog") {
        let line = program_in(alloc, script, words)?;
        return behind_reply(alloc, report, line);
    }
    pair_or_order(alloc, script, report, word, words)
}

fn behind_reply(alloc: Global, report: Report, line: ReplyLine) -> Result<Reading, LineFault>
    ensures { Gives result (Ok (behind_reply report line)) }
{
    match line {
        ReplyLine::Whole(reply) => with_reply(report, reply),
        ReplyLine::Committed(commit) => behind_commit(report, commit, Items::new(alloc)),
    }
}

// The report with one more reply, after which the next may follow.
fn with_reply(mut report: Report, reply: Reply) -> Result<Reading, LineFault>
    ensures { Gives result (Ok (reading (with_reply_read report reply) Place.Replies)) }
{
    let replies = &mut report.replies;
    replies.push(reply)?;
    Ok(Reading {
        report,
        place: Place::Replies,
    })
}

// After a commit and these answers of its `get`s.
fn behind_commit(report: Report, commit: Commit, answers: Items<Got>) -> Result<Reading, LineFault>
    ensures { Gives result (Ok (behind_commit report commit answers)) }
{
    if answers.as_slice().len() < commit.gets.as_slice().len() {
        return Ok(Reading {
            report,
            place: Place::Gots { commit, answers },
        });
    }
    with_reply(
        report,
        Reply {
            request: commit.request,
            stamp: Some(commit.stamp),
            state: ReplyState::Committed {
                number: commit.number,
                answers,
            },
        },
    )
}

fn after_got(
    alloc: Global,
    report: Report,
    commit: Commit,
    mut answers: Items<Got>,
    words: Pieces,
) -> Result<Reading, LineFault>
    ensures { Gives result (after_got (next_get commit answers) report commit answers words.entry) }
{
    let Some(op) = next_get(&commit, &answers) else {
        return Err(LineFault::Refused(ReportCause::Line));
    };
    let got = got_in(alloc, op, words)?;
    answers.push(got)?;
    behind_commit(report, commit, answers)
}

// The number of the next `get`.
fn next_get(commit: &Commit, answers: &Items<Got>) -> Option<u32>
    ensures { result ≡ next_get commit.now answers.now }
{
    commit
        .gets
        .as_slice()
        .get(answers.as_slice().len())
        .copied()
}

fn after_pairs(
    alloc: Global,
    script: &Named,
    report: Report,
    mut words: Pieces,
) -> Result<Reading, LineFault>
    ensures { Gives result (after_pairs script.now report words.entry) }
{
    let Some(word) = words.next() else {
        return Err(LineFault::Refused(ReportCause::Line));
    };
    pair_or_order(alloc, script, report, word, words)
}

// After a pair or the order, from the first word of its line and the words after it.
fn pair_or_order(
    alloc: Global,
    script: &Named,
    report: Report,
    word: &[u8],
    more: Pieces,
) -> Result<Reading, LineFault>
    ensures { Gives result (after_pairs script.now report (word.now ∷ more.entry)) }
{
    if is(word, b"settled") {
        let pair = pair_in(script, more)?;
        return with_pair(report, pair);
    }
    if is(word, b"order") {
        let order = order_in(alloc, script, more)?;
        return Ok(with_order(report, order));
    }
    Err(LineFault::Refused(ReportCause::Line))
}

// The report with one more pair, after which the next may follow.
fn with_pair(mut report: Report, pair: Pair) -> Result<Reading, LineFault>
    ensures { Gives result (Ok (reading (with_pair report pair) Place.Pairs)) }
{
    let pairs = &mut report.pairs;
    pairs.push(pair)?;
    Ok(Reading {
        report,
        place: Place::Pairs,
    })
}

// The report with its order, after which answers of steps may follow.
fn with_order(mut report: Report, order: Items<u32>) -> Reading
    ensures { result ≡ reading (with_order report order) Place.Answers }
{
    report.order = order;
    Reading {
        report,
        place: Place::Answers,
    }
}

// A pair, from the words after `settled`.
fn pair_in(script: &Named, mut words: Pieces) -> Result<Pair, LineFault>
    ensures { GivesExactly result (pair_in script.now words.entry) }
{
    let Some(vertex) = words.next() else {
        return Err(LineFault::Refused(ReportCause::Line));
    };
    let Some(earlier) = words.next() else {
        return Err(LineFault::Refused(ReportCause::Line));
    };
    let Some(later) = words.next() else {
        return Err(LineFault::Refused(ReportCause::Line));
    };
    if let Some(_) = words.next() {
        return Err(LineFault::Refused(ReportCause::Line));
    }
    pair_of(script, vertex, earlier, later)
}

fn pair_of(script: &Named, vertex: &[u8], earlier: &[u8], later: &[u8]) -> Result<Pair, LineFault>
    ensures { GivesExactly result (pair_in script.now (vertex.now ∷ earlier.now ∷ later.now ∷ [])) }
{
    let vertex = name_in(vertex)?;
    let earlier_name = name_in(earlier)?;
    let later_name = name_in(later)?;
    let earlier = any_named(script, earlier_name)?;
    let later = any_named(script, later_name)?;
    Ok(Pair {
        vertex,
        earlier,
        later,
    })
}

// The order, from the words after `order`. A word that is no name is reported before a name that is no request's.
fn order_in(alloc: Global, script: &Named, words: Pieces) -> Result<Items<u32>, LineFault>
    ensures { Gives result (order_in script.now words.entry) }
{
    let mut order = Some(Items::new(alloc));
    for word in words {
        let name = name_in(word)?;
        order = with_named(script, order, name)?;
    }
    match order {
        Some(order) => Ok(order),
        None => Err(LineFault::Refused(ReportCause::Request)),
    }
}

// The requests so far with the one of a name; none once there is none of a name.
fn with_named(
    script: &Named,
    order: Option<Items<u32>>,
    name: Name,
) -> Result<Option<Items<u32>>, AllocError>
    ensures { IfOk result (λ next. next ≡ with_named script.now order name) }
{
    let Some(mut order) = order else {
        return Ok(None);
    };
    let Some(place) = script.place(name) else {
        return Ok(None);
    };
    order.push(place)?;
    Ok(Some(order))
}

fn after_answers(report: Report, mut words: Pieces) -> Result<Reading, LineFault>
    ensures { Gives result (after_answers report words.entry) }
{
    let Some(word) = words.next() else {
        return Err(LineFault::Refused(ReportCause::Line));
    };
    if is(word, b"did") {
        let number = report.answers.as_slice().len() as u64 + 1;
        let answer = did_in(number, words)?;
        return with_answer(report, answer);
    }
    if is(word, b"end") && words.is_empty() {
        return Ok(Reading {
            report,
            place: Place::Ended,
        });
    }
    Err(LineFault::Refused(ReportCause::Line))
}

// The report with one more answer of a step, after which the next may follow.
fn with_answer(mut report: Report, answer: StepAnswer) -> Result<Reading, LineFault>
    ensures { Gives result (Ok (reading (with_answer report answer) Place.Answers)) }
{
    let answers = &mut report.answers;
    answers.push(answer)?;
    Ok(Reading {
        report,
        place: Place::Answers,
    })
}
