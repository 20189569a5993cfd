//! Which listed transactions wrote at the vertices of a request before its place, and which after it.

use crate::replaying::visits_at;
use explain_case::Case;
use explain_lines::{Part, say, say_line};
use graph_ops::{Graph, Op};
use program_defs::{Visits, Work};
use std::alloc::{AllocError, Global};
use weave_text::Text;

/// Says which transactions that name a vertex of the request are listed next to it, before and after. The graph is that
/// before its place.
pub(crate) fn neighbour_words(
    alloc: Global,
    text: &mut Text,
    case: &Case,
    graph: &Graph,
    request: u32,
    place: u64,
) -> Result<(), AllocError> {
    let start = place.saturating_sub(1) as usize;
    let before = case.order().get(..start).unwrap_or(&[]);
    let after = case.order().get(start.saturating_add(1)..).unwrap_or(&[]);
    let Some(found) = case.request(request) else {
        return Ok(());
    };
    match &found.work {
        Work::Change(ops) => {
            let earlier = before
                .iter()
                .rev()
                .find(|other| meets(case, ops.as_slice(), **other));
            let later = after
                .iter()
                .find(|other| meets(case, ops.as_slice(), **other));
            put_neighbours(text, case, NAMED, earlier, later)
        }
        Work::Look(program) => {
            let visits = visits_at(alloc, graph, program)?;
            let earlier = before
                .iter()
                .rev()
                .find(|other| is_read(case, &visits, **other));
            let later = after.iter().find(|other| is_read(case, &visits, **other));
            put_neighbours(text, case, READ, earlier, later)
        }
    }
}

const NAMED: &str = "Of the other transactions that name a vertex of it, the order lists ";

const READ: &str = "Of the transactions that name a vertex which it reads there, the order lists ";

// Writes which of these transactions are listed last before the request and first after it.
fn put_neighbours(
    text: &mut Text,
    case: &Case,
    form: &str,
    earlier: Option<&u32>,
    later: Option<&u32>,
) -> Result<(), AllocError> {
    say(text, form, &[])?;
    put_neighbour(text, case, earlier, "last", "before it")?;
    say(text, ", and ", &[])?;
    put_neighbour(text, case, later, "first", "after it")?;
    say_line(
        text,
        ". So the order line, one of the answers or a request of the script is wrong.",
        &[],
    )
}

// Writes which request is listed first or last on a side, or that there is none.
fn put_neighbour(
    text: &mut Text,
    case: &Case,
    request: Option<&u32>,
    which: &str,
    side: &str,
) -> Result<(), AllocError> {
    let which = Part::Word(which.as_bytes());
    let side = Part::Word(side.as_bytes());
    match request {
        Some(request) => say(
            text,
            "`%` (line % of the script) % %",
            &[case.word(*request), case.line(*request), which, side],
        ),
        None => say(text, "none %", &[side]),
    }
}

// Whether another transaction names a vertex that one of these operations names.
fn meets(case: &Case, ops: &[Op], other: u32) -> bool {
    ops.iter().any(|op| names_one_of(case, *op, other))
}

fn names_one_of(case: &Case, op: Op, other: u32) -> bool {
    if case.names(other, op.vertex()) {
        return true;
    }
    match op.needs() {
        Some(vertex) => case.names(other, vertex),
        None => false,
    }
}

// Whether a transaction names a vertex that is read.
fn is_read(case: &Case, visits: &Visits, other: u32) -> bool {
    let Some(found) = case.request(other) else {
        return false;
    };
    match &found.work {
        Work::Change(ops) => ops.as_slice().iter().any(|op| reads_one_of(visits, *op)),
        Work::Look(_) => false,
    }
}

fn reads_one_of(visits: &Visits, op: Op) -> bool {
    if visits.has(op.vertex()) {
        return true;
    }
    match op.needs() {
        Some(vertex) => visits.has(vertex),
        None => false,
    }
}
