//! `reply R` of a program: it is finished at its gatekeeper, and its session has the reply.
ghost use Rattle.std.specs.Prelude.{◌≡◌, ◌<◌, length, IsTrue, IfOk, OnErr};
ghost use Rattle.std.specs.List.{list_any};
ghost use Rattle.weave_entries.specs.GateReplay.{is_begun, running_of};
ghost use Rattle.weave_entries.specs.SessionReplay.{RepliesToLast};
ghost use Rattle.report_rules.specs.declared.report.StepAnswer.TheVariants as answer;
ghost use Rattle.weaver_core.specs.Sessions.{session_at};
ghost use Rattle.weaver_core.specs.Finishing.{AreSameParts, CanBeFinished, FinishesInSession, IsFinishedWith, last_author};
ghost use Rattle.weaver_core.specs.GateTable.{gate_log_at};

use crate::gates::Gates;
use crate::sessions::Clients;
use program_defs::Request;
use report_rules::{Reply, StepAnswer};
use std::alloc::{AllocError, Global};

/// The program is finished, if its session waits for its reply and it has read all that it visits, and the session has
/// the reply. The one error is out of memory.
pub(crate) fn finish_in(
    alloc: Global,
    gates: &mut Gates,
    clients: &mut Clients,
    request: u32,
    asked: &Request,
) -> Result<StepAnswer, AllocError>
    requires { CanBeFinished gates.old clients.old asked.now.gate asked.now.session request }
    ensures finishes { IfOk result (FinishesInSession gates.old gates.new clients.old clients.new
        asked.now.gate asked.now.session request) }
    ensures refused { OnErr result (AreSameParts gates.old gates.new clients.old clients.new) }
{
    if !clients.is_open(asked.session, request) {
        return Ok(StepAnswer::Idle);
    }
    let Some(reply) = clients.outcome(alloc, asked.session)? else {
        return Ok(StepAnswer::Idle);
    };
    finish_with(alloc, gates, clients, request, asked, reply)
}

// The program is finished, in the name of the author of its begin. The room for the session's entry and reply is taken
// first.
fn finish_with(
    alloc: Global,
    gates: &mut Gates,
    clients: &mut Clients,
    request: u32,
    asked: &Request,
    reply: Reply,
) -> Result<StepAnswer, AllocError>
    requires gate { asked.now.gate < length gates.old.logs }
    requires session { asked.now.session < length clients.old.logs }
    requires turn { RepliesToLast (session_at clients.old asked.now.session) request }
    requires own { reply.request ≡ request }
    requires runs { IsTrue (list_any (is_begun (last_author request (gate_log_at gates.old asked.now.gate)) request)
        (running_of (gate_log_at gates.old asked.now.gate))) }
    ensures done { IfOk result (λ result. result ≡ answer.Ok) }
    ensures finished { IfOk result (λ _. IsFinishedWith gates.old gates.new clients.old clients.new
        asked.now.gate asked.now.session request reply) }
    ensures refused { OnErr result (AreSameParts gates.old gates.new clients.old clients.new) }
{
    clients.reserve(asked.session)?;
    let author = gates.author(asked.gate, request);
    gates.finish(alloc, asked.gate, author, request)?;
    clients.replied(asked.session, reply);
    Ok(StepAnswer::Ok)
}
