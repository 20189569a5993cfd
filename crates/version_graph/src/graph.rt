//! The chains of a shard.
ghost use Rattle.std.specs.Prelude.{◌≡◌, List, IsTrue, OnOk, OnErr, None, option_copied};
ghost use Rattle.std.specs.Option.{option_map};
ghost use Rattle.weave_data.specs.declared.name.Name.{Name};
ghost use Rattle.vector_stamp.specs.declared.clock.Stamp.{Stamp};
ghost use Rattle.vector_stamp.specs.Order.{is_at_most};
ghost use Rattle.vector_stamp.specs.Precedence.{GivenPair};
ghost use Rattle.version_chain.specs.Collection.{collected_chain};
ghost use Rattle.version_chain.specs.Views.{view_of};
ghost use Rattle.version_graph.specs.Graphs.{chain_of, chain_or_new, after_parts, AreNextUpdates};

use crate::table::{Table, apply_all, collect_each};
use graph_ops::Part;
use std::alloc::{AllocError, Global};
use std::marker::Model;
use vector_stamp::{Clock, Stamp};
use version_chain::Chain;
use version_chain::laws::collections_leave_views;
use weave_data::Name;

/// The chains of a shard's vertices, in the order of their first updates. Contracts see a finite map from names to
/// chains, with those alone that have updates.
#[derive(Drop)]
pub struct VersionGraph {
    table: Table,
}

impl Model for VersionGraph {
    ghost use Rattle.std.specs.FinMap as map;
    ghost use Rattle.version_graph.specs.Graphs.{Chains, coded_chain};
    ghost use Rattle.version_graph.specs.Tables.{chains_held};
    ghost use Rattle.graph_ops.specs.Codes.{coded_name};

    ghost Value = { Chains };

    ghost coded = { map.code coded_name coded_chain };

    ghost view = { λ g. chains_held g.table.entries };
}

impl VersionGraph {
    /// No vertex has updates. It takes no memory.
    pub fn new(alloc: Global) -> VersionGraph
        ensures { (v : Name) → chain_of result v ≡ None }
    {
        VersionGraph {
            table: Table::new(alloc),
        }
    }

    /// The chain of a vertex, or `None` if no update of it was applied.
    pub fn chain(&self, v: Name) -> Option<&Chain>
        ensures { option_copied result ≡ chain_of self.now v }
    {
        let Some(chain) = self.table.get(&v) else {
            return None;
        };
        if chain.count() == 0 {
            return None;
        }
        Some(chain)
    }

    /// Applies the parts of a transaction of this stamp, all or none. The one error is out of memory.
    pub fn apply_parts(
        &mut self,
        alloc: Global,
        stamp: Stamp,
        parts: &[Part],
    ) -> Result<(), AllocError>
        requires { AreNextUpdates self.old parts.now }
        ensures applied { OnOk result ((v : Name)
            → chain_of self.new v ≡ after_parts stamp v (chain_of self.old v) parts.now) }
        ensures refused { OnErr result (self.new ≡ self.old) }
    {
        apply_all(&mut self.table, alloc, stamp, parts)
    }
}

/// Collects each chain: its versions older than the newest one whose clock is before the bound are dropped.
/// No view changes for a program whose clock the bound is at most. It takes no memory.
pub fn collect_all(graph: &mut VersionGraph, bound: &Clock)
    ensures chains { (v : Name) → chain_of graph.new v ≡ option_map (collected_chain bound.now) (chain_of graph.old v) }
    ensures views { (v : Name) (pairs : List GivenPair) (program : Stamp) → IsTrue (is_at_most bound.now program.clock)
        → view_of pairs program (chain_or_new (chain_of graph.new v))
        ≡ view_of pairs program (chain_or_new (chain_of graph.old v)) }
{
    collections_leave_views();
    collect_each(&mut graph.table, bound);
}
