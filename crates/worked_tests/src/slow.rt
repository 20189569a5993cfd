//! A plain, slow judge for reports of a few requests: each fact by itself, precedence by looking for ways, and each
//! graph from the start. It shares no code with the judge that `check` calls.

mod graphs;
mod lookups;
mod order;
mod prices;
mod replies;
mod ways;

use crate::slow::graphs::{is_pair_right, is_refusal_right, is_replay_right};
use crate::slow::order::{is_conflict_right, is_listing_right, is_order_right};
use crate::slow::replies::{is_number_right, is_reply_right};
use crate::slow::ways::{Ways, ways_of};
use program_defs::Script;
use report_rules::{Clause, Report};
use std::alloc::{AllocError, Global};
use weave_script::read_check;
use weave_text::Text;

const CLAUSES: [Clause; 8] = [
    Clause::I,
    Clause::Ii,
    Clause::Iii,
    Clause::Iv,
    Clause::V,
    Clause::Vi,
    Clause::Vii,
    Clause::Viii,
];

/// The line that `check` has to write of an input, if it can be read.
pub fn slow_line(alloc: Global, input: &[u8]) -> Result<Vec<u8>, AllocError> {
    match read_check(alloc, input) {
        Ok((script, report)) => line_of(alloc, &script, &report),
        Err(_) => Ok(Vec::new(alloc)),
    }
}

fn line_of(alloc: Global, script: &Script, report: &Report) -> Result<Vec<u8>, AllocError> {
    let broken = first_fault(alloc, script, report)?;
    let mut text = Text::new(alloc);
    match broken {
        None => text.push(b"yes")?,
        Some((clause, place)) => {
            text.push(b"no")?;
            text.word(name_of(clause))?;
            text.number_word(place)?;
        }
    }
    text.end_line()?;
    Ok(text.into_bytes())
}

fn name_of(clause: Clause) -> &'static [u8] {
    match clause {
        Clause::I => b"i",
        Clause::Ii => b"ii",
        Clause::Iii => b"iii",
        Clause::Iv => b"iv",
        Clause::V => b"v",
        Clause::Vi => b"vi",
        Clause::Vii => b"vii",
        Clause::Viii => b"viii",
    }
}

// The first clause that breaks, and its first place.
fn first_fault(
    alloc: Global,
    script: &Script,
    report: &Report,
) -> Result<Option<(Clause, u64)>, AllocError> {
    let ways = ways_of(alloc, report)?;
    for clause in CLAUSES {
        if let Some(place) = first_place(alloc, script, report, &ways, clause)? {
            return Ok(Some((clause, place)));
        }
    }
    Ok(None)
}

// The first place that breaks, from 1.
fn first_place(
    alloc: Global,
    script: &Script,
    report: &Report,
    ways: &Ways,
    clause: Clause,
) -> Result<Option<u64>, AllocError> {
    for place in 0..places(report, clause) {
        if !holds(alloc, script, report, ways, clause, place)? {
            return Ok(Some((place as u64).saturating_add(1)));
        }
    }
    Ok(None)
}

fn places(report: &Report, clause: Clause) -> usize {
    let replies = report.replies.as_slice().len();
    let order = report.order.as_slice().len();
    match clause {
        Clause::I => replies.saturating_add(1),
        Clause::Ii => order.saturating_add(1),
        Clause::Iii | Clause::Iv => order,
        Clause::V => report.pairs.as_slice().len(),
        Clause::Vi | Clause::Vii | Clause::Viii => replies,
    }
}

fn holds(
    alloc: Global,
    script: &Script,
    report: &Report,
    ways: &Ways,
    clause: Clause,
    place: usize,
) -> Result<bool, AllocError> {
    match clause {
        Clause::I => Ok(is_reply_right(script, report, place)),
        Clause::Ii => Ok(is_listing_right(report, place)),
        Clause::Iii => Ok(is_order_right(script, report, ways, place)),
        Clause::Iv => is_replay_right(alloc, script, report, place),
        Clause::V => is_pair_right(alloc, script, report, place),
        Clause::Vi => Ok(is_conflict_right(script, report, ways, place)),
        Clause::Vii => is_refusal_right(alloc, script, report, place),
        Clause::Viii => Ok(is_number_right(report, place)),
    }
}
