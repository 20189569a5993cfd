//! The pairs that are drawn: from which column to which, on which track.

use crate::drawn::Drawn;
use crate::layout::{Plan, Span, label_width, tracks_of};
use program_defs::Script;
use report_rules::{Pair, Report};
use std::alloc::{AllocError, Global};

/// A pair that is drawn.
#[derive(Clone, Copy, PartialEq, Eq, PartialOrd, Ord)]
pub(crate) struct Arrow {
    /// The left end of its line.
    pub(crate) left: u64,
    pub(crate) right: u64,
    /// Where it begins and ends.
    pub(crate) from: u64,
    pub(crate) to: u64,
    pub(crate) from_column: u64,
    pub(crate) to_column: u64,
    /// The pair's number in the report, from 0.
    pub(crate) number: u64,
    pub(crate) track: u64,
}

// A pair between two columns.
#[derive(Clone, Copy)]
pub(crate) struct Ends {
    number: u64,
    from: u64,
    to: u64,
    letters: u64,
}

/// The column of each request that is drawn, by its place in the script.
pub(crate) fn columns_of(
    alloc: Global,
    script: &Script,
    drawn: &[Drawn],
) -> Result<Vec<Option<u64>>, AllocError> {
    let mut columns = Vec::new(alloc);
    for _ in script.requests.as_slice() {
        columns.push(None)?;
    }
    let mut column: u64 = 0;
    for request in drawn {
        if let Some(place) = columns.get_mut(request.request as usize) {
            *place = Some(column);
        }
        column = column.saturating_add(1);
    }
    Ok(columns)
}

/// The pairs between requests that are drawn, and how many lines of them end at each column.
#[derive(Drop)]
pub(crate) struct Ported {
    pub(crate) counts: Vec<u64>,
    /// Of these, the lines that lead to it.
    arriving: Vec<u64>,
    ends: Vec<Ends>,
}

/// The pairs between requests that are drawn, which have so many columns.
pub(crate) fn drawn_pairs(
    alloc: Global,
    report: &Report,
    columns: &[Option<u64>],
    count: u64,
) -> Result<Ported, AllocError> {
    let ends = ends_of(alloc, report.pairs.as_slice(), columns)?;
    let mut counts = arriving_of(alloc, count, ends.as_slice())?;
    let arriving = counts.clone()?;
    for pair in ends.as_slice() {
        count_on(counts.as_mut_slice(), pair.from);
    }
    Ok(Ported {
        counts,
        arriving,
        ends,
    })
}

/// The lines of pairs from right to left, each with its track.
pub(crate) fn arrows_of(
    alloc: Global,
    plan: &Plan,
    ported: &Ported,
) -> Result<Vec<Arrow>, AllocError> {
    let mut arrows = placed(alloc, plan, ported)?;
    arrows.as_mut_slice().sort_unstable();
    arrows.as_mut_slice().reverse();
    let spans = spans_of(alloc, arrows.as_slice())?;
    let tracks = tracks_of(alloc, spans.as_slice())?;
    for (arrow, track) in arrows.as_mut_slice().iter_mut().zip(tracks.as_slice()) {
        arrow.track = *track;
    }
    Ok(arrows)
}

fn column_at(columns: &[Option<u64>], request: u32) -> Option<u64> {
    match columns.get(request as usize) {
        Some(column) => *column,
        None => None,
    }
}

fn ends_of(
    alloc: Global,
    pairs: &[Pair],
    columns: &[Option<u64>],
) -> Result<Vec<Ends>, AllocError> {
    let mut ends = Vec::new(alloc);
    let mut number: u64 = 0;
    for pair in pairs {
        if let (Some(from), Some(to)) = (
            column_at(columns, pair.earlier),
            column_at(columns, pair.later),
        ) {
            ends.push(Ends {
                number,
                from,
                to,
                letters: pair.vertex.bytes().len() as u64,
            })?;
        }
        number = number.saturating_add(1);
    }
    Ok(ends)
}

// How many lines of pairs lead to each column.
fn arriving_of(alloc: Global, columns: u64, ends: &[Ends]) -> Result<Vec<u64>, AllocError> {
    let mut counts = Vec::new(alloc);
    for _ in 0..columns {
        counts.push(0)?;
    }
    for pair in ends {
        count_on(counts.as_mut_slice(), pair.to);
    }
    Ok(counts)
}

// One more at a column; how many were there.
fn count_on(counts: &mut [u64], column: u64) -> u64 {
    match counts.get_mut(column as usize) {
        Some(count) => {
            let before = *count;
            *count = before.saturating_add(1);
            before
        }
        None => 0,
    }
}

fn count_at(counts: &[u64], column: u64) -> u64 {
    match counts.get(column as usize) {
        Some(count) => *count,
        None => 0,
    }
}

// The lines, each end at a place of its own under its box: first those that lead to it, then those that leave it.
fn placed(alloc: Global, plan: &Plan, ported: &Ported) -> Result<Vec<Arrow>, AllocError> {
    let counts = ported.counts.as_slice();
    let mut arrived = arriving_of(alloc, plan.columns, &[])?;
    let mut left = ported.arriving.clone()?;
    let mut arrows = Vec::new(alloc);
    for pair in ported.ends.as_slice() {
        let first = count_on(left.as_mut_slice(), pair.from);
        let second = count_on(arrived.as_mut_slice(), pair.to);
        let from = plan.port_x(pair.from, first, count_at(counts, pair.from));
        let to = plan.port_x(pair.to, second, count_at(counts, pair.to));
        arrows.push(arrow_between(pair, from, to))?;
    }
    Ok(arrows)
}

fn arrow_between(pair: &Ends, from: u64, to: u64) -> Arrow {
    let left = from.min(to);
    Arrow {
        left,
        right: from
            .max(to)
            .max(left.saturating_add(label_width(pair.letters))),
        from,
        to,
        from_column: pair.from,
        to_column: pair.to,
        number: pair.number,
        track: 0,
    }
}

fn spans_of(alloc: Global, arrows: &[Arrow]) -> Result<Vec<Span>, AllocError> {
    let mut spans = Vec::new(alloc);
    for arrow in arrows {
        spans.push(Span {
            left: arrow.left,
            right: arrow.right,
        })?;
    }
    Ok(spans)
}
