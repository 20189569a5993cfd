//! `reply R` of a transaction: its session has the reply.
ghost use Rattle.std.specs.Prelude.{◌≡◌, ◌<◌, Contains, Some, length, IsSome, IfOk, OnErr};
ghost use Rattle.program_defs.specs.declared.script.Request.{Request};
ghost use Rattle.report_rules.specs.Lookups.{request_at};
ghost use Rattle.weaver_core.specs.Sessions.{AreSameClients, requests_at};
ghost use Rattle.weaver_core.specs.GivingReplies.{HasGateAndSession, Replies, RepliesToOne, is_flying};

use crate::gates::Gates;
use crate::replies::state_of_begun;
use crate::sessions::Clients;
use backing_store::Store;
use program_defs::{Request, Script};
use report_rules::{Reply, StepAnswer};
use std::alloc::{AllocError, Global};

/// The session has the reply to the script's request, if that was sent. The reply's state is by the store's log. The
/// one error is out of memory.
pub(crate) fn reply_in(
    alloc: Global,
    gates: &Gates,
    store: &Store,
    clients: &mut Clients,
    script: &Script,
    request: u32,
) -> Result<StepAnswer, AllocError>
    requires there { IsSome (request_at script.now request) }
    requires ready { (asked : Request) → request_at script.now request ≡ Some asked
        → HasGateAndSession gates.now clients.old request asked }
    ensures replies { IfOk result (Replies script.now gates.now store.now clients.old clients.new request) }
    ensures refused { OnErr result (AreSameClients clients.old clients.new) }
{
    let asked = &script.requests.as_slice()[request as usize];
    reply_to_one(alloc, gates, store, clients, request, asked)
}

// The session has the reply. A transaction that has begun was sent unless it is in flight.
fn reply_to_one(
    alloc: Global,
    gates: &Gates,
    store: &Store,
    clients: &mut Clients,
    request: u32,
    asked: &Request,
) -> Result<StepAnswer, AllocError>
    requires gate { asked.now.gate < length gates.now.logs }
    requires session { asked.now.session < length clients.old.logs }
    requires among { Contains (requests_at clients.old asked.now.session) request }
    ensures replies { IfOk result (RepliesToOne gates.now store.now clients.old clients.new request asked.now) }
    ensures refused { OnErr result (AreSameClients clients.old clients.new) }
{
    let is_open = clients.is_open(asked.session, request);
    let is_flying = flies(gates, asked.gate, request);
    if !is_open {
        return Ok(StepAnswer::Idle);
    }
    if is_flying {
        return Ok(StepAnswer::Idle);
    }
    clients.reserve(asked.session)?;
    let stamp = clients.last(asked.session);
    let state = state_of_begun(alloc, request, store)?;
    clients.replied(
        asked.session,
        Reply {
            request,
            stamp,
            state,
        },
    );
    Ok(StepAnswer::Ok)
}

// Whether the request is the transaction in flight.
fn flies(gates: &Gates, gate: u32, request: u32) -> bool
    requires { gate < length gates.now.logs }
    ensures { result ≡ is_flying gates.now gate request }
{
    match gates.flight(gate) {
        Some(flight) => flight.request == request,
        None => false,
    }
}
