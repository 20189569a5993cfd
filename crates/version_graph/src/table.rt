//! The table of chains.
ghost use Rattle.std.specs.Prelude.{◌≡◌, ◌≢◌, List, Option, Some, IsSome, All, AllPairs, OnOk, OnErr};
ghost use Rattle.std.specs.Map.{lookup};
ghost use Rattle.std.specs.Option.{option_map};
ghost use Rattle.weave_data.specs.Names.{same_name};
ghost use Rattle.weave_data.specs.declared.name.Name.{Name};
ghost use Rattle.graph_ops.specs.declared.part.Part.{Part};
ghost use Rattle.version_chain.specs.declared.version.Version.{Version};
ghost use Rattle.version_chain.specs.Chains.{ChainView, with_version, IsNextUpdate, KeepsOne};
ghost use Rattle.version_chain.specs.Collection.{collected_chain};
ghost use Rattle.version_graph.specs.Graphs.{chain_or_new, after_part, after_parts};
ghost use Rattle.version_graph.specs.Tables.{chain_at, with_updates, at_vertex, HasNewest, WereApplied};

use graph_ops::Part;
use indexmap::IndexMap;
use std::alloc::{AllocError, Global};
use vector_stamp::{Clock, Stamp};
use version_chain::Chain;
use version_chain::laws::collections_leave_views;
use weave_data::Name;

/// The chains, in the order in which their vertices came first.
pub(crate) type Table = IndexMap<Name, Chain>;

/// Applies parts of vertices of their own, all or none.
pub(crate) fn apply_all(
    table: &mut Table,
    alloc: Global,
    stamp: Stamp,
    parts: &[Part],
) -> Result<(), AllocError>
    requires apart { AllPairs (λ (one other : Part). one.vertex ≢ other.vertex) parts.now }
    requires next { All (λ (part : Part).
        IsNextUpdate (chain_or_new (chain_at part.vertex table.old.entries)) part.before part.ops) parts.now }
    ensures applied { OnOk result ((v : Name)
        → chain_at v table.new.entries ≡ after_parts stamp v (chain_at v table.old.entries) parts.now) }
    ensures refused { OnErr result ((v : Name) → chain_at v table.new.entries ≡ chain_at v table.old.entries) }
{
    for done in 0..parts.len() {
        let part = &parts[done];
        match apply_one(table, alloc, stamp, part) {
            Ok(()) => {}
            Err(error) => {
                take_all_back(table, stamp, &parts[..done]);
                return Err(error);
            }
        }
    }
    Ok(())
}

// Applies one part. If it is out of memory, its vertex may have got an empty place in the table.
fn apply_one(table: &mut Table, alloc: Global, stamp: Stamp, part: &Part) -> Result<(), AllocError>
    requires { IsNextUpdate (chain_or_new (chain_at part.now.vertex table.old.entries))
        part.now.before part.now.ops }
    ensures applied { OnOk result ((v : Name)
        → chain_at v table.new.entries ≡ after_part stamp v (chain_at v table.old.entries) part.now) }
    ensures refused { OnErr result ((v : Name) → chain_at v table.new.entries ≡ chain_at v table.old.entries) }
    ensures base { OnOk result (KeepsOne (chain_or_new (chain_at part.now.vertex table.old.entries))) }
{
    make_place(table, alloc, part.vertex)?;
    update(table, alloc, stamp, part)
}

// Makes a place for the chain of a vertex, if there is none.
fn make_place(table: &mut Table, alloc: Global, vertex: Name) -> Result<(), AllocError>
    ensures place { OnOk result (IsSome (lookup (same_name vertex) table.new.entries)) }
    ensures same { (v : Name) → chain_at v table.new.entries ≡ chain_at v table.old.entries }
{
    if !table.contains_key(&vertex) {
        table.insert(vertex, Chain::new(alloc))?;
    }
    Ok(())
}

// Applies a part to the chain in its vertex's place.
fn update(table: &mut Table, alloc: Global, stamp: Stamp, part: &Part) -> Result<(), AllocError>
    requires place { IsSome (lookup (same_name part.now.vertex) table.old.entries) }
    requires next { IsNextUpdate (chain_or_new (chain_at part.now.vertex table.old.entries))
        part.now.before part.now.ops }
    ensures applied { OnOk result ((v : Name)
        → chain_at v table.new.entries ≡ after_part stamp v (chain_at v table.old.entries) part.now) }
    ensures refused { OnErr result ((v : Name) → chain_at v table.new.entries ≡ chain_at v table.old.entries) }
    ensures base { OnOk result (KeepsOne (chain_or_new (chain_at part.now.vertex table.old.entries))) }
{
    let Some(chain) = table.get_mut(&part.vertex) else {
        unreachable!()
    };
    // Its clause `base` is what is to be shown.
    chain.kept();
    chain.apply_update(alloc, stamp, part.before, part.ops.as_slice())
}

// Takes back the updates of parts that were applied: the chains are as before them.
fn take_all_back(table: &mut Table, stamp: Stamp, parts: &[Part])
    requires { (before : List (Name × ChainView)) × WereApplied stamp parts.now before table.old.entries }
    ensures { (before : List (Name × ChainView)) → WereApplied stamp parts.now before table.old.entries
        → (v : Name) → chain_at v table.new.entries ≡ chain_at v before }
{
    let mut rest = parts;
    while let Some((last, earlier)) = rest.split_last() {
        take_one_back(table, last.vertex);
        rest = earlier;
    }
}

// Takes back the newest update of a vertex.
fn take_one_back(table: &mut Table, vertex: Name)
    requires { HasNewest (chain_at vertex table.old.entries) }
    ensures { (newest : Version) (chain : ChainView)
        → chain_at vertex table.old.entries ≡ Some (with_version newest chain)
        → (v : Name) → chain_at v table.new.entries
        ≡ at_vertex vertex v (with_updates (Some chain)) (chain_at v table.old.entries) }
{
    let Some(chain) = table.get_mut(&vertex) else {
        unreachable!()
    };
    chain.take_back();
}

/// Collects each chain.
pub(crate) fn collect_each(table: &mut Table, bound: &Clock)
    ensures { (v : Name) → chain_at v table.new.entries
        ≡ option_map (collected_chain bound.now) (chain_at v table.old.entries) }
{
    collections_leave_views();
    // It writes to each chain, and removes none.
    table.retain(|_vertex, chain| {
        chain.collect(bound);
        true
    });
}
