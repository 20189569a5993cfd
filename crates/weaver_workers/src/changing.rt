//! A transaction of a session: begun, judged and sent, and its reply.
ghost use Rattle.std.specs.Prelude.{◌≡◌, ℕ, ◌<◌, ◌≤◌, length, IfOk, OnOk, Some};
ghost use Rattle.program_defs.specs.Limits.{IsWithinLimits};
ghost use Rattle.program_defs.specs.declared.script.Request.{Request};
ghost use Rattle.program_defs.specs.declared.script.Work.TheVariants as work;
ghost use Rattle.report_rules.specs.Lookups.{request_at};
ghost use Rattle.weave_account.specs.Report.{state_by_verdict};
ghost use Rattle.weave_entries.specs.SessionReplay.{BeginsNext};
ghost use Rattle.weaver_core.specs.Sessions.{spare_of, IsClientOf, IsInTurn};
ghost use Rattle.weaver_workers.specs.Keeping.{AreLocksOf, KeepsClient};
ghost use Rattle.weaver_workers.specs.Turning.{stand, GainsReply, Tries};

use crate::keeping::workers_keep_their_laws;
use crate::tried::{Tried, tried_in_vain};
use graph_ops::Op;
use program_defs::Script;
use report_rules::{Reply, ReplyState};
use std::alloc::{AllocError, Global};
use std::sync::Wait;
use vector_stamp::Stamp;
use weave_entries::Verdict;
use weaver_core::Client;
use weaver_hands::transact;
use weaver_locks::{Hand, Shared};

/// The session's next request, which is a transaction with these operations, is begun, judged and sent, and has its
/// reply, unless another one is in flight at its gatekeeper. It may wait. The one error is out of memory.
pub(crate) fn try_change<R: Wait>(
    rt: &R,
    alloc: Global,
    hand: &mut Hand,
    client: &mut Client,
    shared: &Shared,
    script: &Script,
    number: u32,
    request: u32,
    ops: &[Op],
) -> Result<Tried, AllocError>
    requires limits { IsWithinLimits script.now }
    requires locks { AreLocksOf script.now shared.now }
    requires keeps { KeepsClient shared.now script.now number hand.old client.old }
    requires there { request < length script.now.requests }
    requires turn { IsInTurn client.old.session request }
    requires work { (asked : Request) → request_at script.now request ≡ Some asked → asked.work ≡ work.Change ops.now }
    ensures { IfOk result (λ tried. (upto : ℕ) → request < upto
        → Tries shared.now script.now number upto (stand hand.old client.old) (stand hand.new client.new) tried) }
{
    workers_keep_their_laws();
    let asked = &script.requests.as_slice()[request as usize];
    client.reserve()?;
    let last = client.session.last();
    match transact(rt, alloc, hand, shared, request, asked.gate, ops, last) {
        Ok((stamp, verdict)) => {
            answer_change(client, number, request, stamp, verdict)?;
            Ok(Tried::Replied)
        }
        Err(fault) => tried_in_vain(fault, asked.gate),
    }
}

// The session's next request was begun with this stamp, and has its reply by the verdict. The one error is out of
// memory.
fn answer_change(
    client: &mut Client,
    number: u32,
    request: u32,
    stamp: Stamp,
    verdict: Verdict,
) -> Result<(), AllocError>
    requires client { IsClientOf number client.old.session client.old.log.items }
    requires room { 1 ≤ spare_of client.old }
    requires next { BeginsNext client.old.session request stamp }
    ensures { OnOk result (GainsReply number client.old client.new request stamp (state_by_verdict verdict)) }
{
    workers_keep_their_laws();
    client.begun(number, request, stamp);
    client.reserve()?;
    client.replied(
        number,
        Reply {
            request,
            stamp: Some(stamp),
            state: state_of(verdict),
        },
    );
    Ok(())
}

// The state of a request by its verdict.
fn state_of(verdict: Verdict) -> ReplyState
    ensures { result ≡ state_by_verdict verdict }
{
    match verdict {
        Verdict::Committed {
            number,
            answers,
            ..
        } => ReplyState::Committed { number, answers },
        Verdict::Conflict { vertex, newer } => ReplyState::Conflict { vertex, newer },
        Verdict::Refused { op, reason, at } => ReplyState::Refused { op, reason, at },
    }
}
