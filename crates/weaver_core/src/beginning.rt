//! `begin R`: a request is stamped at its gatekeeper, in its session's turn.
ghost use Rattle.std.specs.Prelude.{◌≡◌, ◌<◌, Contains, Some, length, IsSome, IfOk, OnErr};
ghost use Rattle.program_defs.specs.declared.script.Request.{Request};
ghost use Rattle.report_rules.specs.Lookups.{request_at};
ghost use Rattle.weaver_core.specs.Beginning.{Begins, BeginsOne, IsReadyToBegin, MayBeHeard};
ghost use Rattle.weaver_core.specs.Sessions.{AreSameClients, IsInTurn, requests_at, session_at, standing_at};

use crate::client::Standing;
use crate::gates::Gates;
use crate::sessions::Clients;
use gatekeeper::GateFault;
use program_defs::{Request, Script};
use report_rules::StepAnswer;
use std::alloc::{AllocError, Global};

/// The request of the script is stamped at its gatekeeper, if it is its session's next one. The one error is out of
/// memory.
pub(crate) fn begin_in(
    alloc: Global,
    gates: &mut Gates,
    clients: &mut Clients,
    script: &Script,
    request: u32,
) -> Result<StepAnswer, AllocError>
    requires there { IsSome (request_at script.now request) }
    requires ready { (asked : Request) → request_at script.now request ≡ Some asked
        → IsReadyToBegin gates.old clients.old request asked }
    ensures begins { IfOk result (Begins script.now gates.old gates.new clients.old clients.new request) }
    ensures gates { OnErr result (gates.new ≡ gates.old) }
    ensures clients { OnErr result (AreSameClients clients.old clients.new) }
{
    let asked = &script.requests.as_slice()[request as usize];
    begin_one(alloc, gates, clients, request, asked)
}

// The request is stamped at its gatekeeper, if it is its session's next one.
fn begin_one(
    alloc: Global,
    gates: &mut Gates,
    clients: &mut Clients,
    request: u32,
    asked: &Request,
) -> Result<StepAnswer, AllocError>
    requires gate { asked.now.gate < length gates.old.logs }
    requires session { asked.now.session < length clients.old.logs }
    requires among { Contains (requests_at clients.old asked.now.session) request }
    requires known { MayBeHeard gates.old clients.old asked.now }
    ensures begins { IfOk result (BeginsOne gates.old gates.new clients.old clients.new request asked.now) }
    ensures gates { OnErr result (gates.new ≡ gates.old) }
    ensures clients { OnErr result (AreSameClients clients.old clients.new) }
{
    match clients.standing(asked.session, request) {
        Standing::Twice => Ok(StepAnswer::Twice),
        Standing::Early => Ok(StepAnswer::Early),
        Standing::Next => begin_next(alloc, gates, clients, request, asked),
    }
}

// The request, which is its session's next one, is stamped at its gatekeeper. The room for the session's entry is taken
// first.
fn begin_next(
    alloc: Global,
    gates: &mut Gates,
    clients: &mut Clients,
    request: u32,
    asked: &Request,
) -> Result<StepAnswer, AllocError>
    requires gate { asked.now.gate < length gates.old.logs }
    requires session { asked.now.session < length clients.old.logs }
    requires next { standing_at clients.old asked.now.session request ≡ Standing.Next }
    requires turn { IsInTurn (session_at clients.old asked.now.session) request }
    requires known { MayBeHeard gates.old clients.old asked.now }
    ensures begins { IfOk result (BeginsOne gates.old gates.new clients.old clients.new request asked.now) }
    ensures gates { OnErr result (gates.new ≡ gates.old) }
    ensures clients { OnErr result (AreSameClients clients.old clients.new) }
{
    clients.reserve(asked.session)?;
    let last = clients.last(asked.session);
    match gates.begin(alloc, asked.gate, request, &asked.work, last) {
        Ok(stamp) => {
            clients.begun(asked.session, request, stamp);
            Ok(StepAnswer::Ok)
        }
        Err(GateFault::Busy) => Ok(StepAnswer::Busy),
        Err(_) => Err(AllocError),
    }
}
