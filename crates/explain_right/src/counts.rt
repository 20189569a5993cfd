//! How the requests of a report ended.

use explain_case::Case;
use explain_lines::{Part, say_line};
use program_defs::{Request, Script, Work};
use report_rules::{Reply, ReplyState};
use std::alloc::AllocError;
use weave_text::Text;

/// How many requests ended in which way.
#[derive(Clone, Copy)]
struct Counts {
    unbegun: u64,
    begun: u64,
    committed: u64,
    conflict: u64,
    refused: u64,
    finished: u64,
}

/// Says how many requests there are, how they ended, and how many pairs the oracle added.
pub(crate) fn count_words(text: &mut Text, case: &Case) -> Result<(), AllocError> {
    script_words(text, case.script)?;
    let counts = counts_of(case.replies());
    put_count(text, counts.committed, "    committed transactions: %")?;
    put_count(text, counts.conflict, "    transactions in conflict: %")?;
    put_count(text, counts.refused, "    refused transactions: %")?;
    put_count(text, counts.finished, "    finished programs: %")?;
    put_count(text, counts.begun, "    begun, without their reply: %")?;
    put_count(text, counts.unbegun, "    not begun: %")?;
    say_line(
        text,
        "    pairs that the oracle put in order: %",
        &[Part::Number(case.report.pairs.as_slice().len() as u64)],
    )
}

fn put_count(text: &mut Text, count: u64, form: &str) -> Result<(), AllocError> {
    if count == 0 {
        return Ok(());
    }
    say_line(text, form, &[Part::Number(count)])
}

fn counts_of(replies: &[Reply]) -> Counts {
    let mut counts = Counts {
        unbegun: 0,
        begun: 0,
        committed: 0,
        conflict: 0,
        refused: 0,
        finished: 0,
    };
    for reply in replies {
        count_on(&mut counts, &reply.state);
    }
    counts
}

fn count_on(counts: &mut Counts, state: &ReplyState) {
    match state {
        ReplyState::Unbegun => counts.unbegun = counts.unbegun.saturating_add(1),
        ReplyState::Begun => counts.begun = counts.begun.saturating_add(1),
        ReplyState::Committed { .. } => counts.committed = counts.committed.saturating_add(1),
        ReplyState::Conflict { .. } => counts.conflict = counts.conflict.saturating_add(1),
        ReplyState::Refused { .. } => counts.refused = counts.refused.saturating_add(1),
        ReplyState::Finished(_) => counts.finished = counts.finished.saturating_add(1),
    }
}

/// Says what a script has.
pub fn script_words(text: &mut Text, script: &Script) -> Result<(), AllocError> {
    let requests = script.requests.as_slice();
    let programs = programs_in(requests);
    say_line(
        text,
        "The script: gatekeepers %, shards %, requests % (programs among them %), phases %.",
        &[
            Part::Number(u64::from(script.gates)),
            Part::Number(u64::from(script.shards)),
            Part::Number(requests.len() as u64),
            Part::Number(programs),
            Part::Number((script.phases.as_slice().len() as u64).saturating_add(1)),
        ],
    )
}

fn programs_in(requests: &[Request]) -> u64 {
    let mut count: u64 = 0;
    for request in requests {
        if matches!(request.work, Work::Look(_)) {
            count = count.saturating_add(1);
        }
    }
    count
}
