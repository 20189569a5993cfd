//! What is marked in the picture of a report that isn't right.

use crate::drawn::Drawn;
use report_rules::{Clause, Report};

/// What `check` says of a report.
#[derive(Clone, Copy)]
pub struct Verdict<'a> {
    /// Its line, without the line feed.
    pub line: &'a [u8],
    pub is_right: bool,
    pub mark: Mark,
}

/// What breaks a clause.
#[derive(Clone, Copy, PartialEq, Eq)]
pub enum Mark {
    Nothing,
    /// A request: its place in the script, from 0.
    Request(u32),
    /// A request of the order that precedes one listed at most at its own place, from 1.
    Listed { request: u32, place: u64 },
    /// A pair, from 0.
    Pair(u64),
}

impl Mark {
    /// Whether it is this request.
    pub(crate) fn is_request(self, request: u32) -> bool {
        match self {
            Mark::Request(marked) => marked == request,
            Mark::Listed {
                request: marked,
                ..
            } => marked == request,
            Mark::Nothing | Mark::Pair(_) => false,
        }
    }

    /// Whether it is the pair of this number, from 0, from one drawn request to another; or a request's pair to one
    /// that is listed before it.
    pub(crate) fn is_pair(self, number: u64, from: Option<&Drawn>, to: Option<&Drawn>) -> bool {
        match (self, from, to) {
            (Mark::Pair(marked), _, _) => marked == number,
            (Mark::Listed { request, place }, Some(from), Some(to)) => {
                from.request == request && 0 < to.place && to.place <= place
            }
            _ => false,
        }
    }

    /// What a clause says breaks it at a place, from 1.
    pub fn of(report: &Report, clause: Clause, place: u64) -> Mark {
        if place == 0 {
            return Mark::Nothing;
        }
        let index = place - 1;
        match clause {
            Clause::V => Mark::Pair(index),
            Clause::Ii | Clause::Iv => listed_at(report, index),
            Clause::Iii => preceding_at(report, index),
            Clause::I | Clause::Vi | Clause::Vii | Clause::Viii => replied_at(report, index),
        }
    }
}

fn listed_at(report: &Report, index: u64) -> Mark {
    match report.order.as_slice().get(index as usize) {
        Some(request) => Mark::Request(*request),
        None => Mark::Nothing,
    }
}

fn preceding_at(report: &Report, index: u64) -> Mark {
    match report.order.as_slice().get(index as usize) {
        Some(request) => Mark::Listed {
            request: *request,
            place: index.saturating_add(1),
        },
        None => Mark::Nothing,
    }
}

fn replied_at(report: &Report, index: u64) -> Mark {
    match report.replies.as_slice().get(index as usize) {
        Some(reply) => Mark::Request(reply.request),
        None => Mark::Nothing,
    }
}
