//! A transaction that passed, and can be taken back.
ghost use Rattle.std.specs.Prelude.{◌≡◌, ◌<◌, ◌^◌, length, Ok, Err, IfOk, OnOk, OnErr};
ghost use Rattle.graph_ops.specs.Graphs.{plain_of, IfTxRefused};
ghost use Rattle.graph_ops.specs.Journals.{CanRewindIn};
ghost use Rattle.graph_ops.specs.Pendings.{rewound_map};
ghost use Rattle.graph_ops.specs.PlainGraph.{empty_graph, transaction};
ghost use Rattle.graph_ops.specs.Slots.{vertices_held};

use crate::graph::Graph;
use crate::journal::{Slots, Step, rewind, run_or_rewind};
use crate::op::Op;
use crate::tx::{Got, TxFault};
use std::alloc::Global;
use std::collections::HashMap;
use std::marker::Model;
use std::mem::replace;

/// A graph that a transaction has changed, and that can go back to what it was. Seen by contracts as the graph before
/// and after.
#[derive(Drop)]
pub struct Pending {
    slots: Slots,
    journal: Vec<Step>,
}

impl Model for Pending {
    ghost use Rattle.graph_ops.specs.Journals.{CanRewindIn};
    ghost use Rattle.graph_ops.specs.Pendings.{BothVertices, rewound_map, coded_both};
    ghost use Rattle.graph_ops.specs.Slots.{vertices_held};

    ghost Value = { BothVertices };

    ghost coded = { coded_both };

    ghost view = { λ p. record {
      before = rewound_map p.journal.items (vertices_held p.slots.entries);
      after = vertices_held p.slots.entries;
    } };

    ghost invariant = { λ p. CanRewindIn p.journal.items p.slots.entries };
}

impl Graph {
    /// Runs a transaction that may still be taken back. If it passes, the graph moves into the `Pending`, and an empty
    /// one is left. After either fault the graph is as before.
    pub fn apply(&mut self, alloc: Global, ops: &[Op]) -> Result<(Vec<Got>, Pending), TxFault>
        requires { length ops.now < 2 ^ 32 }
        ensures done { IfOk result (λ passed. transaction ops.now (plain_of self.old)
            ≡ Ok (record { graph = plain_of passed.1.after; gots = passed.0.items })) }
        ensures before { IfOk result (λ passed. passed.1.before ≡ self.old) }
        ensures left { OnOk result (plain_of self.new ≡ empty_graph) }
        ensures refused { IfTxRefused result (λ stopped. transaction ops.now (plain_of self.old) ≡ Err stopped) }
        ensures unchanged { OnErr result (self.new ≡ self.old) }
    {
        match run_or_rewind(alloc, &mut self.slots, ops) {
            Ok((gots, journal)) => {
                let slots = replace(&mut self.slots, HashMap::new(alloc));
                Ok((gots, Pending::new(slots, journal)))
            }
            Err(fault) => Err(fault),
        }
    }
}

impl Pending {
    pub(crate) fn new(slots: Slots, journal: Vec<Step>) -> Pending
        requires { CanRewindIn journal.items slots.entries }
        ensures after { result.after ≡ vertices_held slots.entries }
        ensures before { result.before ≡ rewound_map journal.items (vertices_held slots.entries) }
    {
        Pending { slots, journal }
    }

    /// The graph after the transaction. It takes no memory.
    pub fn keep(self) -> Graph
        ensures { result ≡ self.after }
    {
        let Pending { slots, .. } = self;
        Graph { slots }
    }

    /// The graph before the transaction. It takes no memory.
    pub fn undo(self, alloc: Global) -> Graph
        ensures { result ≡ self.before }
    {
        let Pending { mut slots, journal } = self;
        rewind(alloc, &mut slots, journal);
        Graph { slots }
    }
}
