//! A script and a report that were read.

use explain_lines::{Part, Spots};
use program_defs::{Request, Script, Work};
use report_rules::{Reply, ReplyState, Report};
use vector_stamp::Stamp;
use weave_data::Name;

/// A script and a report that were read from an input, and the lines in it that say them. Requests are named by their
/// places in the script, from 0.
#[derive(Clone, Copy)]
pub struct Case<'a, 'b> {
    pub input: &'a [u8],
    pub script: &'a Script,
    pub report: &'a Report,
    pub spots: &'b Spots<'a>,
}

impl<'a, 'b> Case<'a, 'b> {
    /// The replies.
    pub fn replies(&self) -> &'a [Reply] {
        self.report.replies.as_slice()
    }

    /// The order.
    pub fn order(&self) -> &'a [u32] {
        self.report.order.as_slice()
    }

    /// The request at a place in the script.
    pub fn request(&self, request: u32) -> Option<&'a Request> {
        self.script.requests.as_slice().get(request as usize)
    }

    /// The reply of a request.
    pub fn reply(&self, request: u32) -> Option<&'a Reply> {
        self.replies().get(request as usize)
    }

    /// The stamp of a request, if it has begun.
    pub fn stamp(&self, request: u32) -> Option<Stamp> {
        match self.reply(request) {
            Some(reply) => reply.stamp,
            None => None,
        }
    }

    /// The commit number of a request, if it is committed.
    pub fn number(&self, request: u32) -> Option<u64> {
        match self.reply(request) {
            Some(reply) => number_in(&reply.state),
            None => None,
        }
    }

    /// The name of a request.
    pub fn name(&self, request: u32) -> &'a [u8] {
        match self.request(request) {
            Some(request) => request.name.bytes(),
            None => b"",
        }
    }

    /// The name of a request, to be put into a sentence.
    pub fn word(&self, request: u32) -> Part<'a> {
        Part::Word(self.name(request))
    }

    /// The line of a request.
    pub fn line(&self, request: u32) -> Part<'a> {
        let requests = self.spots.requests.as_slice();
        match requests.get(request as usize) {
            Some(spot) => Part::Number(u64::from(spot.line)),
            None => Part::Number(0),
        }
    }

    /// The session of a request.
    pub fn session(&self, request: u32) -> u64 {
        match self.request(request) {
            Some(request) => u64::from(request.session),
            None => 0,
        }
    }

    /// Whether two requests are of one session.
    pub fn same_session(&self, a: u32, b: u32) -> bool {
        self.session(a) == self.session(b)
    }

    /// Whether the request is a transaction that names the vertex.
    pub fn names(&self, request: u32, vertex: Name) -> bool {
        names_vertex(self.script, request, vertex)
    }
}

// Whether a request is a transaction with an operation that names the vertex.
fn names_vertex(script: &Script, request: u32, vertex: Name) -> bool {
    let Some(request) = script.requests.as_slice().get(request as usize) else {
        return false;
    };
    match &request.work {
        Work::Change(ops) => {
            ops.as_slice()
                .iter()
                .any(|op| op.vertex() == vertex || op.needs() == Some(vertex))
        }
        Work::Look(_) => false,
    }
}

/// The number of a commit.
pub fn number_in(state: &ReplyState) -> Option<u64> {
    match state {
        ReplyState::Committed { number, .. } => Some(*number),
        _ => None,
    }
}

/// The element at a place, from 1.
pub fn item_at<T>(items: &[T], place: u64) -> Option<&T> {
    if place == 0 {
        return None;
    }
    items.get(place.saturating_sub(1) as usize)
}
