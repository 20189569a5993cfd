//! `judge G`: the store judges the transaction in flight, and the oracle is asked in the same step.
ghost use Rattle.std.specs.Prelude.{◌≡◌, ◌<◌, None, Some, is_some, length, IsSome, IfOk, OnErr};
ghost use Rattle.program_defs.specs.Works.{ops_of};
ghost use Rattle.report_rules.specs.Lookups.{request_at};
ghost use Rattle.weave_entries.specs.GateReplay.{BegunRequest, flight_of};
ghost use Rattle.weave_entries.specs.StoreReplay.{judgement_of};
ghost use Rattle.step_rules.specs.Requests.{ops_in};
ghost use Rattle.weaver_core.specs.GateTable.{gate_log_at};
ghost use Rattle.weaver_core.specs.Judging.{CanBeJudged, JudgesFlight};

use crate::gates::Gates;
use backing_store::Store;
use graph_ops::Op;
use program_defs::{Request, Script, Work};
use report_rules::StepAnswer;
use std::alloc::{AllocError, Global};
use timeline_oracle::Oracle;
use weave_entries::laws::oracle_entries_are_a_judges;

/// The flight is judged, unless it has its verdict. The one error is out of memory.
pub(crate) fn judge_in(
    alloc: Global,
    gates: &Gates,
    store: &mut Store,
    oracle: &mut Oracle,
    script: &Script,
    gate: u32,
) -> Result<StepAnswer, AllocError>
    requires there { gate < length gates.now.logs }
    requires ready { (flight : BegunRequest) → flight_of (gate_log_at gates.now gate) ≡ Some flight
        → judgement_of flight.request store.old ≡ None → CanBeJudged script.now store.old oracle.old flight }
    ensures judges { IfOk result (JudgesFlight script.now gates.now store.old store.new oracle.old oracle.new gate) }
    ensures store { OnErr result (store.new ≡ store.old) }
    ensures oracle { OnErr result (oracle.new ≡ oracle.old) }
{
    oracle_entries_are_a_judges();
    let Some(flight) = gates.flight(gate) else {
        return Ok(StepAnswer::Idle);
    };
    if is_judged(store, flight.request) {
        return Ok(StepAnswer::Idle);
    }
    let ops = ops_of(script, flight.request);
    let _verdict = store.commit(
        alloc,
        flight.author,
        flight.request,
        flight.stamp,
        ops,
        oracle,
    )?;
    Ok(StepAnswer::Ok)
}

// The operations of a request; a program has none.
fn ops_of(script: &Script, request: u32) -> &[Op]
    requires { IsSome (request_at script.now request) }
    ensures { result.now ≡ ops_in (request_at script.now request) }
{
    let asked = &script.requests.as_slice()[request as usize];
    ops_asked(asked)
}

fn ops_asked(asked: &Request) -> &[Op]
    ensures { result.now ≡ ops_of asked.now.work }
{
    match &asked.work {
        Work::Change(ops) => ops.as_slice(),
        Work::Look(_) => &[],
    }
}

// Whether the transaction has its verdict.
fn is_judged(store: &Store, request: u32) -> bool
    ensures { result ≡ is_some (judgement_of request store.now) }
{
    match store.judged(request) {
        Some(_) => true,
        None => false,
    }
}
