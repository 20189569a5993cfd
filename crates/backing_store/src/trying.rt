//! A transaction's operations, tried on the graph.
ghost use Rattle.std.specs.Prelude.{◌≡◌, ◌<◌, ◌^◌, length, Ok, IfOk, OnErr};
ghost use Rattle.graph_ops.specs.Graphs.{plain_of};
ghost use Rattle.graph_ops.specs.PlainGraph.{PlainGraph, TxOutcome, transaction, graph_left};
ghost use Rattle.weave_entries.specs.StoreRule.{ops_bound};
ghost use Rattle.backing_store.specs.Trying.{verdict_of_ops, IsTrial};

use graph_ops::{Got, Graph, Op, Pending, TxFault};
use std::alloc::{AllocError, Global};
use weave_data::{Copied, Items};
use weave_entries::{Counted, Verdict};

/// What the operations of a transaction result in, if the judge permits them.
#[derive(Drop)]
pub(crate) struct Tried {
    /// The verdict for the log.
    pub logged: Verdict,
    /// The same verdict for the caller.
    pub answer: Verdict,
    /// The graph before and after them, if they passed.
    pub pending: Option<Pending>,
}

/// Runs the operations on the graph that this many commits left.
/// If one is refused, or memory runs out, the graph is as before.
pub(crate) fn try_ops(
    alloc: Global,
    graph: &mut Graph,
    made: u64,
    counts: Items<Counted>,
    ops: &[Op],
) -> Result<Tried, AllocError>
    requires few { length ops.now < ops_bound }
    requires room { made < 2 ^ 63 }
    ensures logged { IfOk result (λ tried. tried.logged
        ≡ verdict_of_ops made counts (transaction ops.now (plain_of graph.old))) }
    ensures answer { IfOk result (λ tried. tried.answer ≡ tried.logged) }
    ensures trial { IfOk result (λ tried.
        IsTrial (transaction ops.now (plain_of graph.old)) (plain_of graph.old) (plain_of graph.new) tried.pending) }
    ensures unchanged { OnErr result (plain_of graph.new ≡ plain_of graph.old) }
{
    match graph.apply(alloc, ops) {
        Ok((gots, pending)) => passed(alloc, graph, made, counts, gots, pending),
        Err(TxFault::Refused { op, reason }) => Ok(Tried {
            logged: Verdict::Refused {
                op,
                reason,
                at: made,
            },
            answer: Verdict::Refused {
                op,
                reason,
                at: made,
            },
            pending: None,
        }),
        Err(TxFault::Memory) => Err(AllocError),
    }
}

// The operations passed: the verdict, twice. If memory runs out for that, the graph is as before them.
fn passed(
    alloc: Global,
    graph: &mut Graph,
    made: u64,
    counts: Items<Counted>,
    gots: Vec<Got>,
    pending: Pending,
) -> Result<Tried, AllocError>
    requires { made < 2 ^ 63 }
    ensures logged { IfOk result (λ tried. tried.logged
        ≡ verdict_of_ops made counts (Ok (record { graph = plain_of pending.after; gots = gots.items }))) }
    ensures answer { IfOk result (λ tried. tried.answer ≡ tried.logged) }
    ensures trial { IfOk result (λ tried.
        IsTrial (Ok (record { graph = plain_of pending.after; gots = gots.items }))
        (plain_of pending.before) (plain_of graph.new) tried.pending) }
    ensures back { OnErr result (graph.new ≡ pending.before) }
{
    let logged = Verdict::Committed {
        number: made + 1,
        answers: Items::from_vec(gots),
        counts,
    };
    match logged.copy(alloc) {
        Ok(answer) => Ok(Tried {
            logged,
            answer,
            pending: Some(pending),
        }),
        Err(error) => {
            *graph = pending.undo(alloc);
            Err(error)
        }
    }
}

/// The graph becomes that after the operations. It takes no memory.
pub(crate) fn keep(graph: &mut Graph, pending: Option<Pending>)
    ensures { (outcome : TxOutcome) (old : PlainGraph) → IsTrial outcome old (plain_of graph.old) pending
        → plain_of graph.new ≡ graph_left old outcome }
{
    if let Some(pending) = pending {
        *graph = pending.keep();
    }
}

/// The graph becomes that before the operations. It takes no memory.
pub(crate) fn take_back(alloc: Global, graph: &mut Graph, pending: Option<Pending>)
    ensures { (outcome : TxOutcome) (old : PlainGraph) → IsTrial outcome old (plain_of graph.old) pending
        → plain_of graph.new ≡ old }
{
    if let Some(pending) = pending {
        *graph = pending.undo(alloc);
    }
}
