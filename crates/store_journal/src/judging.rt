//! A transaction that is judged in memory, before anything is written.
ghost use Rattle.std.specs.Prelude.{◌≡◌, ◌≤◌, ◌<◌, ◌^◌, ◌∷◌, ◌++◌, [], length, Ok, Err, IfOk, OnOk, OnErr};
ghost use Rattle.std.specs.List.{AllByRecursion};
ghost use Rattle.weave_data.specs.Limits.{most_ops};
ghost use Rattle.graph_ops.specs.Graphs.{plain_of, IfTxRefused};
ghost use Rattle.graph_ops.specs.PlainGraph.{transaction};
ghost use Rattle.weave_script.specs.Scripts.{IsOperation};
ghost use Rattle.store_journal.specs.Journal.{framed};
ghost use Rattle.store_journal.specs.Payloads.{commit_with, payload_of};

use crate::payload::record_of;
use graph_ops::{Got, Graph, Op, TxFault};
use std::alloc::Global;
use vector_stamp::Stamp;

/// Runs a transaction, and adds its record to the journal in memory. After either fault both are as before.
pub fn judge(
    alloc: Global,
    journal: &mut Vec<u8>,
    graph: &mut Graph,
    stamp: &Stamp,
    ops: &[Op],
) -> Result<Vec<Got>, TxFault>
    requires { length ops.now ≤ most_ops }
    ensures done { IfOk result (λ answers. transaction ops.now (plain_of graph.old)
        ≡ Ok (record { graph = plain_of graph.new; gots = answers.items })) }
    ensures refused { IfTxRefused result (λ stopped. transaction ops.now (plain_of graph.old) ≡ Err stopped) }
    ensures added { OnOk result (journal.new.items
        ≡ journal.old.items ++ (framed (payload_of (commit_with stamp.now ops.now)) ++ 0 ∷ [])) }
    ensures typed { OnOk result (AllByRecursion IsOperation ops.now) }
    ensures short { OnOk result (length (payload_of (commit_with stamp.now ops.now)) < 2 ^ 32) }
    ensures unchanged { OnErr result ((journal.new.items ≡ journal.old.items) × (graph.new ≡ graph.old)) }
{
    let record = record_of(alloc, stamp, ops)?;
    let before = journal.len();
    journal.extend_from_slice(record.as_slice())?;
    match graph.run_tx(alloc, ops) {
        Ok(answers) => Ok(answers),
        Err(fault) => {
            journal.truncate(before);
            Err(fault)
        }
    }
}
