//! `send G`: the messages of the transaction in flight go out, by its verdict.
ghost use Rattle.std.specs.Prelude.{◌≡◌, ◌<◌, length, Contains, IfOk, OnErr};
ghost use Rattle.weave_entries.specs.Sending.{IsCountsOf};
ghost use Rattle.weave_entries.specs.StoreReplay.{Judgement, judged_by, judgements_of};
ghost use Rattle.weaver_core.specs.Sending.{SendsJudgedFlight};

use crate::gates::Gates;
use backing_store::Store;
use graph_ops::Op;
use report_rules::StepAnswer;
use std::alloc::{AllocError, Global};
use weave_entries::{StoreDeed, StoreEntry, Verdict};

/// The flight is sent by its verdict, if it has one. The one error is out of memory.
pub(crate) fn send_in(
    alloc: Global,
    gates: &mut Gates,
    store: &Store,
    gate: u32,
) -> Result<StepAnswer, AllocError>
    requires there { gate < length gates.old.logs }
    requires counts { (judged : Judgement) → Contains (judgements_of store.now) judged
        → IsCountsOf judged.ops judged.verdict }
    ensures sends { IfOk result (SendsJudgedFlight gates.old gates.new store.now gate) }
    ensures refused { OnErr result (gates.new ≡ gates.old) }
{
    let Some(flight) = gates.flight(gate) else {
        return Ok(StepAnswer::Idle);
    };
    let Some(entry) = store.judged(flight.request) else {
        return Ok(StepAnswer::Idle);
    };
    let ops = ops_judged(entry);
    let verdict = verdict_judged(entry);
    gates.send(alloc, gate, flight.author, ops, verdict)?;
    Ok(StepAnswer::Ok)
}

fn ops_judged(entry: &StoreEntry) -> &[Op]
    ensures { result.now ≡ (judged_by entry.now.author entry.now.deed).ops }
{
    let StoreDeed::Judged { ops, .. } = &entry.deed;
    ops.as_slice()
}

fn verdict_judged(entry: &StoreEntry) -> &Verdict
    ensures { result.now ≡ (judged_by entry.now.author entry.now.deed).verdict }
{
    let StoreDeed::Judged { verdict, .. } = &entry.deed;
    verdict
}
