//! The replies of a report, as the logs of closed machines have them.

use crate::hands::worker::Ended;
use gatekeeper::Gate;
use program_defs::{Request, Script, Work};
use report_rules::{Reply, ReplyState};
use std::alloc::Global;
use std::process::Abort;
use vector_stamp::Stamp;
use weave_data::{Copied, Items};
use weave_entries::{GateDeed, StoreDeed, StoreEntry, Verdict};
use weaver_locks::Closed;

/// The reply of each request of the script. The programs that were finished have these answers.
pub fn replies_of(
    rt: &impl Abort,
    alloc: Global,
    script: &Script,
    closed: &Closed,
    ended: &[Ended],
) -> Items<Reply> {
    let mut replies = Items::new(alloc);
    let mut request = 0u32;
    for asked in script.requests.as_slice() {
        let reply = reply_of(rt, alloc, closed, ended, asked, request);
        replies.push(reply).expect(rt, "memory");
        request = request.saturating_add(1);
    }
    replies
}

fn reply_of(
    rt: &impl Abort,
    alloc: Global,
    closed: &Closed,
    ended: &[Ended],
    asked: &Request,
    request: u32,
) -> Reply {
    let stamp = stamp_of(closed.gates.as_slice(), request);
    let found = match &asked.work {
        Work::Change(_) => judged_in(rt, alloc, closed.store.log(), request),
        Work::Look(_) => answered_in(rt, alloc, ended, request),
    };
    let state = match found {
        Some(state) => state,
        None => state_if(stamp.is_some()),
    };
    Reply {
        request,
        stamp,
        state,
    }
}

fn state_if(begun: bool) -> ReplyState {
    if begun {
        return ReplyState::Begun;
    }
    ReplyState::Unbegun
}

// The stamp with which the request was begun.
fn stamp_of(gates: &[Gate], request: u32) -> Option<Stamp> {
    for gate in gates {
        for entry in gate.log() {
            if let Some(stamp) = begun_by(&entry.deed, request) {
                return Some(stamp);
            }
        }
    }
    None
}

fn begun_by(deed: &GateDeed, which: u32) -> Option<Stamp> {
    match deed {
        GateDeed::BeganTx { request, stamp } => stamp_if(*request == which, stamp),
        GateDeed::BeganProgram { request, stamp } => stamp_if(*request == which, stamp),
        _ => None,
    }
}

fn stamp_if(is: bool, stamp: &Stamp) -> Option<Stamp> {
    if is {
        return Some(*stamp);
    }
    None
}

// How the transaction was judged.
fn judged_in(rt: &impl Abort, alloc: Global, log: &[StoreEntry], which: u32) -> Option<ReplyState> {
    for entry in log {
        let StoreDeed::Judged {
            request,
            verdict,
            ..
        } = &entry.deed;
        if *request == which {
            return Some(state_by(rt, alloc, verdict));
        }
    }
    None
}

fn state_by(rt: &impl Abort, alloc: Global, verdict: &Verdict) -> ReplyState {
    match verdict {
        Verdict::Committed {
            number,
            answers,
            ..
        } => ReplyState::Committed {
            number: *number,
            answers: answers.copy(alloc).expect(rt, "memory"),
        },
        Verdict::Conflict { vertex, newer } => ReplyState::Conflict {
            vertex: *vertex,
            newer: *newer,
        },
        Verdict::Refused { op, reason, at } => ReplyState::Refused {
            op: *op,
            reason: *reason,
            at: *at,
        },
    }
}

// What the program answered.
fn answered_in(
    rt: &impl Abort,
    alloc: Global,
    ended: &[Ended],
    request: u32,
) -> Option<ReplyState> {
    for program in ended {
        if program.request == request {
            let answer = program.answer.copy(alloc).expect(rt, "memory");
            return Some(ReplyState::Finished(answer));
        }
    }
    None
}
