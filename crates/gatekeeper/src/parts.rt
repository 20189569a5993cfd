//! The parts of messages: a commit's operations, vertex by vertex, and by the shards that keep the vertices.
ghost use Rattle.std.specs.Prelude.{◌≡◌, ◌≤◌, ◌++◌, ◌∷◌, [], false, IfOk, OnOk, IsSome, map};
ghost use Rattle.std.specs.Map.{lookup};
ghost use Rattle.std.specs.List.{range_with_len};
ghost use Rattle.weave_data.specs.Names.{same_name};
ghost use Rattle.weave_data.specs.declared.name.Name.{Name};
ghost use Rattle.weave_entries.specs.Sending.{ops_on};
ghost use Rattle.graph_ops.specs.Operations.{vertex_of};
ghost use Rattle.graph_ops.specs.declared.part.Part.{Part};
ghost use Rattle.gatekeeper.specs.Parts.{ops_at, parts_by_shard, AreOfTheirOwn};

use graph_ops::{Op, Part};
use std::alloc::{AllocError, Global};
use std::collections::HashMap;
use weave_data::{Items, Name};
use weave_entries::Counted;

/// The parts of a commit for each of the shards: those of the vertices that it keeps, in the order of the counts. The
/// one error is out of memory.
pub fn parts_by_shard(
    alloc: Global,
    shards: u32,
    ops: &[Op],
    counts: &[Counted],
) -> Result<Vec<Items<Part>>, AllocError>
    requires some { 1 ≤ shards }
    requires own { AreOfTheirOwn counts.now }
    ensures { IfOk result (λ shares. shares.items ≡ parts_by_shard shards ops.now counts.now) }
{
    if counts.len() == 1 {
        return parts_of_one(alloc, shards, ops, &counts[0]);
    }
    parts_of_all(alloc, shards, ops, counts)
}

// The parts of a commit that names one vertex. It needs no table.
fn parts_of_one(
    alloc: Global,
    shards: u32,
    ops: &[Op],
    counted: &Counted,
) -> Result<Vec<Items<Part>>, AllocError>
    requires some { 1 ≤ shards }
    ensures { IfOk result (λ shares. shares.items ≡ parts_by_shard shards ops.now (counted.now ∷ [])) }
{
    let chosen = ops_on(alloc, counted.vertex, ops)?;
    let only = Part {
        vertex: counted.vertex,
        before: counted.before,
        ops: chosen,
    };
    let mut shares = empty_shares(alloc, shards)?;
    let place = counted.vertex.shard(shards);
    shares[place as usize].push_lean(only)?;
    Ok(shares)
}

// The operations on a vertex, in their order. The list has room for all.
fn ops_on(alloc: Global, vertex: Name, ops: &[Op]) -> Result<Items<Op>, AllocError>
    ensures { IfOk result (λ chosen. chosen ≡ ops_on vertex ops.now) }
{
    let mut chosen = Vec::with_capacity(alloc, ops.len())?;
    for op in ops {
        choose(&mut chosen, vertex, op)?;
    }
    Ok(Items::from_vec(chosen))
}

// Adds the operation if it is on the vertex.
fn choose(chosen: &mut Vec<Op>, vertex: Name, op: &Op) -> Result<(), AllocError>
    ensures { OnOk result (chosen.new.items ≡ chosen.old.items ++ ops_on vertex (op.now ∷ [])) }
{
    if op.vertex() == vertex {
        chosen.push(*op)?;
    }
    Ok(())
}

// The parts of a commit, by a table of the operations on each vertex.
fn parts_of_all(
    alloc: Global,
    shards: u32,
    ops: &[Op],
    counts: &[Counted],
) -> Result<Vec<Items<Part>>, AllocError>
    requires some { 1 ≤ shards }
    requires own { AreOfTheirOwn counts.now }
    ensures { IfOk result (λ shares. shares.items ≡ parts_by_shard shards ops.now counts.now) }
{
    let mut table = ops_by_vertex(alloc, ops)?;
    let mut shares = empty_shares(alloc, shards)?;
    for counted in counts {
        let part = take_part(alloc, &mut table, counted);
        let shard = counted.vertex.shard(shards);
        shares[shard as usize].push_lean(part)?;
    }
    Ok(shares)
}

// For each shard no parts yet.
fn empty_shares(alloc: Global, shards: u32) -> Result<Vec<Items<Part>>, AllocError>
    ensures { IfOk result (λ shares. shares.items ≡ map (λ _. []) (range_with_len 0 shards)) }
{
    let mut shares = Vec::with_capacity(alloc, shards as usize)?;
    for _shard in 0..shards {
        shares.push(Items::new(alloc))?;
    }
    Ok(shares)
}

// The operations on each vertex, in their order.
fn ops_by_vertex(alloc: Global, ops: &[Op]) -> Result<HashMap<Name, Items<Op>>, AllocError>
    ensures { IfOk result (λ table. (vertex : Name) → ops_at vertex table.entries ≡ ops_on vertex ops.now) }
{
    let mut table = HashMap::new(alloc);
    for op in ops {
        make_place(alloc, &mut table, op.vertex())?;
        put_behind(&mut table, op)?;
    }
    Ok(table)
}

// Makes a place for the operations on a vertex, if there is none.
fn make_place(
    alloc: Global,
    table: &mut HashMap<Name, Items<Op>>,
    vertex: Name,
) -> Result<(), AllocError>
    ensures place { OnOk result (IsSome (lookup (same_name vertex) table.new.entries)) }
    ensures same { OnOk result ((other : Name) → ops_at other table.new.entries ≡ ops_at other table.old.entries) }
{
    if !table.contains_key(&vertex) {
        table.insert(vertex, Items::new(alloc))?;
    }
    Ok(())
}

// Puts an operation after those on its vertex.
fn put_behind(table: &mut HashMap<Name, Items<Op>>, op: &Op) -> Result<(), AllocError>
    requires { IsSome (lookup (same_name (vertex_of op.now)) table.old.entries) }
    ensures { OnOk result ((vertex : Name) →
        ops_at vertex table.new.entries ≡ ops_at vertex table.old.entries ++ ops_on vertex (op.now ∷ [])) }
{
    let Some(behind) = table.get_mut(&op.vertex()) else {
        unreachable!()
    };
    behind.push(*op)?;
    Ok(())
}

// Takes the operations on a counted vertex out of the table, as its part.
fn take_part(alloc: Global, table: &mut HashMap<Name, Items<Op>>, counted: &Counted) -> Part
    ensures part { result ≡ record {
      vertex = counted.now.vertex;
      before = counted.now.before;
      ops = ops_at counted.now.vertex table.old.entries;
    } }
    ensures others { (other : Name) → same_name counted.now.vertex other ≡ false
        → ops_at other table.new.entries ≡ ops_at other table.old.entries }
{
    let ops = table.remove(&counted.vertex);
    Part {
        vertex: counted.vertex,
        before: counted.before,
        ops: ops.unwrap_or(Items::new(alloc)),
    }
}
