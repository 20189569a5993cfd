//! Transactions tried on a graph.
ghost use Rattle.std.specs.Prelude.{◌≡◌, ◌<◌, ◌^◌, ◌↔◌, IsTrue, IfOk, Err, length};
ghost use Rattle.graph_ops.specs.Graphs.{plain_of};
ghost use Rattle.graph_ops.specs.PlainGraph.{transaction};
ghost use Rattle.report_rules.specs.Replay.{graph_if_passed};
ghost use Rattle.order_witness.specs.Refusals.{IsExpectedGraph, Marks};

use graph_ops::{Graph, Op, Reason, TxFault};
use std::alloc::{AllocError, Global};

/// Runs a transaction; whether it passes.
pub fn passes(alloc: Global, graph: &mut Graph, ops: &[Op]) -> Result<bool, AllocError>
    requires { length ops.now < 2 ^ 32 }
    ensures { IfOk result
        (IsExpectedGraph (graph_if_passed (transaction ops.now (plain_of graph.old))) (plain_of graph.new)) }
{
    match graph.run_tx(alloc, ops) {
        Ok(_) => Ok(true),
        Err(TxFault::Refused { .. }) => Ok(false),
        Err(TxFault::Memory) => Err(AllocError),
    }
}

/// Whether the transaction would be refused at this operation for this reason. The graph stays as it is: a transaction
/// that passes is taken back.
pub fn stops(
    alloc: Global,
    graph: &mut Graph,
    ops: &[Op],
    op: u32,
    reason: Reason,
) -> Result<bool, AllocError>
    requires { length ops.now < 2 ^ 32 }
    ensures unchanged { graph.new ≡ graph.old }
    ensures mark { IfOk result (λ refused. Marks refused
        (transaction ops.now (plain_of graph.old) ≡ Err (record { op = op; reason = reason }))) }
{
    match graph.apply(alloc, ops) {
        Ok((_, pending)) => {
            *graph = pending.undo(alloc);
            Ok(false)
        }
        Err(
            TxFault::Refused {
                op: stopped,
                reason: cause,
            },
        ) => Ok(is_that(stopped, cause, op, reason)),
        Err(TxFault::Memory) => Err(AllocError),
    }
}

// Whether it stopped at this operation for this reason.
fn is_that(stopped: u32, cause: Reason, op: u32, reason: Reason) -> bool
    ensures { IsTrue result ↔ ((stopped ≡ op) × (cause ≡ reason)) }
{
    stopped == op && cause == reason
}
