//! The replies of a report: the stamp and the state of each request.
ghost use Rattle.std.specs.Prelude.{◌≡◌, ℕ, ◌<◌, ◌^◌, length, slice_get, Some, IfOk, option_copied};
ghost use Rattle.program_defs.specs.declared.script.Request.{Request};
ghost use Rattle.weave_account.specs.Report.{state_by_verdict, state_of_tx};
ghost use Rattle.weave_entries.specs.StoreReplay.{judged_by, judgement_of};
ghost use Rattle.weaver_core.specs.Sessions.{HaveRisingReplies, values_at};
ghost use Rattle.weaver_core.specs.Reporting.{AreRequestsReplies, IsStateFound, state_by_reply, state_replied, state_stamped};

use crate::sessions::Clients;
use backing_store::Store;
use program_defs::{Request, Work};
use report_rules::{Reply, ReplyState};
use std::alloc::{AllocError, Global};
use vector_stamp::Stamp;
use weave_data::{Copied, Items};
use weave_entries::{StoreDeed, StoreEntry, Verdict};

/// One reply for each request, in order. The one error is out of memory.
pub(crate) fn replies_of(
    alloc: Global,
    requests: &[Request],
    stamps: &[Option<Stamp>],
    clients: &Clients,
    store: &Store,
) -> Result<Items<Reply>, AllocError>
    requires few { length requests.now < 2 ^ 32 }
    requires stamps { length stamps.now ≡ length requests.now }
    requires sessions { (r : ℕ) (request : Request) → slice_get requests.now r ≡ Some request
        → request.session < length clients.now.logs }
    requires rising { HaveRisingReplies clients.now.values }
    ensures { IfOk result
        (AreRequestsReplies store.now clients.now.values stamps.now requests.now (length requests.now)) }
{
    let mut replies = Items::from_vec(Vec::with_capacity(alloc, requests.len())?);
    for request in 0..requests.len() as u32 {
        let asked = &requests[request as usize];
        let stamp = stamps[request as usize];
        let state = state_found(alloc, request, asked, stamp, clients, store)?;
        replies.push(Reply {
            request,
            stamp,
            state,
        })?;
    }
    Ok(replies)
}

// The state of a request that has this stamp, if it was begun.
fn state_found(
    alloc: Global,
    request: u32,
    asked: &Request,
    stamp: Option<Stamp>,
    clients: &Clients,
    store: &Store,
) -> Result<ReplyState, AllocError>
    requires session { asked.now.session < length clients.now.logs }
    requires rising { HaveRisingReplies clients.now.values }
    ensures { IfOk result (IsStateFound store.now (values_at clients.now.values asked.now.session).replies request stamp
        asked.now.work) }
{
    match &asked.work {
        Work::Change(_) => state_of(alloc, request, stamp, store),
        Work::Look(_) => {
            let reply = clients.reply(asked.session, request);
            state_of_program(alloc, stamp, reply)
        }
    }
}

// The state of a program that has this stamp, if it was begun, and this reply, if it has one.
fn state_of_program(
    alloc: Global,
    stamp: Option<Stamp>,
    reply: Option<&Reply>,
) -> Result<ReplyState, AllocError>
    ensures { IfOk result (λ state. state ≡ state_by_reply stamp (option_copied reply.entry)) }
{
    match stamp {
        None => Ok(ReplyState::Unbegun),
        Some(_) => state_of_reply(alloc, reply),
    }
}

// The state of a program that has begun.
fn state_of_reply(alloc: Global, reply: Option<&Reply>) -> Result<ReplyState, AllocError>
    ensures { IfOk result (λ state. state ≡ state_replied (option_copied reply.entry)) }
{
    match reply {
        None => Ok(ReplyState::Begun),
        Some(reply) => reply.state.copy(alloc),
    }
}

// The state of a request that has this stamp.
fn state_of(
    alloc: Global,
    request: u32,
    stamp: Option<Stamp>,
    store: &Store,
) -> Result<ReplyState, AllocError>
    ensures { IfOk result (λ state. state ≡ state_stamped store.now request stamp) }
{
    match stamp {
        None => Ok(ReplyState::Unbegun),
        Some(_) => state_of_begun(alloc, request, store),
    }
}

/// The state of a transaction that has begun.
pub(crate) fn state_of_begun(
    alloc: Global,
    request: u32,
    store: &Store,
) -> Result<ReplyState, AllocError>
    ensures { IfOk result (λ state. state ≡ state_of_tx (judgement_of request store.now)) }
{
    match store.judged(request) {
        None => Ok(ReplyState::Begun),
        Some(entry) => state_by_verdict(alloc, verdict_in(entry)),
    }
}

fn verdict_in(entry: &StoreEntry) -> &Verdict
    ensures { result.now ≡ (judged_by entry.now.author entry.now.deed).verdict }
{
    let StoreDeed::Judged { verdict, .. } = &entry.deed;
    verdict
}

// The state of a reply by a verdict.
fn state_by_verdict(alloc: Global, verdict: &Verdict) -> Result<ReplyState, AllocError>
    ensures { IfOk result (λ state. state ≡ state_by_verdict verdict.now) }
{
    match verdict {
        Verdict::Committed {
            number,
            answers,
            ..
        } => Ok(ReplyState::Committed {
            number: *number,
            answers: answers.copy(alloc)?,
        }),
        Verdict::Conflict { vertex, newer } => Ok(ReplyState::Conflict {
            vertex: *vertex,
            newer: *newer,
        }),
        Verdict::Refused { op, reason, at } => Ok(ReplyState::Refused {
            op: *op,
            reason: *reason,
            at: *at,
        }),
    }
}
