//! Precedence: which requests a way leads to, step by step.

use report_rules::Report;
use std::alloc::{AllocError, Global};
use vector_stamp::Stamp;

/// For each request, to which requests a way leads from it.
#[derive(Drop)]
pub struct Ways {
    rows: Vec<Vec<bool>>,
}

impl Ways {
    /// Whether a way leads from the first request to the second.
    pub fn lead(&self, from: u32, to: u32) -> bool {
        match self.rows.as_slice().get(from as usize) {
            Some(row) => is_set(row.as_slice(), to as usize),
            None => false,
        }
    }
}

fn is_set(marks: &[bool], place: usize) -> bool {
    match marks.get(place) {
        Some(mark) => *mark,
        None => false,
    }
}

/// The ways of a report.
pub fn ways_of(alloc: Global, report: &Report) -> Result<Ways, AllocError> {
    let mut rows = Vec::new(alloc);
    for from in 0..report.replies.as_slice().len() {
        rows.push(reached_from(alloc, report, from)?)?;
    }
    Ok(Ways { rows })
}

// The requests to which a way leads: those of one step, and then again those of one step from them.
fn reached_from(alloc: Global, report: &Report, from: usize) -> Result<Vec<bool>, AllocError> {
    let count = report.replies.as_slice().len();
    let mut reached = vec![in alloc; false; count]?;
    for _ in 0..count {
        if !go_on(report, from, reached.as_mut_slice()) {
            break;
        }
    }
    Ok(reached)
}

// One step from the start and from what is reached. Answers whether there is something new.
fn go_on(report: &Report, from: usize, reached: &mut [bool]) -> bool {
    let mut is_new = false;
    for to in 0..reached.len() {
        if leads(report, from, to) || is_next(report, reached, to) {
            is_new = set(reached, to) || is_new;
        }
    }
    is_new
}

// Sets a mark. Answers whether it was not set.
fn set(marks: &mut [bool], place: usize) -> bool {
    let Some(mark) = marks.get_mut(place) else {
        return false;
    };
    let was_set = *mark;
    *mark = true;
    !was_set
}

fn is_next(report: &Report, reached: &[bool], to: usize) -> bool {
    reached.iter().enumerate().any(|(from, is_reached)| *is_reached && leads(report, from, to))
}

// One step: by stamps, or by a pair whose ends have these stamps.
fn leads(report: &Report, a: usize, b: usize) -> bool {
    let (Some(x), Some(y)) = (stamp_at(report, a), stamp_at(report, b)) else {
        return false;
    };
    x.is_before(&y)
        || report.pairs.as_slice().iter().any(|pair| {
            stamp_at(report, pair.earlier as usize) == Some(x)
                && stamp_at(report, pair.later as usize) == Some(y)
        })
}

fn stamp_at(report: &Report, place: usize) -> Option<Stamp> {
    report.replies.as_slice().get(place)?.stamp
}
