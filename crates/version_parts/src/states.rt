//! The state of a vertex, read from its items.
ghost use Rattle.std.specs.Prelude.{◌≡◌, ◌∷◌, ◌++◌, Some, IfOk};
ghost use Rattle.version_parts.specs.KeptValues.{kept_values};
ghost use Rattle.version_parts.specs.States.{edge_at, edges_at, record_at, state_at};

use crate::edge::EdgeItems;
use crate::lists::Lists;
use crate::maps::values_at;
use crate::time::Time;
use graph_ops::{Edge, Record};
use std::alloc::{AllocError, Global};
use weave_data::{Name, NameMap};

/// The state after an update. The one error is out of memory.
pub(crate) fn state_at(
    alloc: Global,
    lists: &Lists,
    update: u64,
) -> Result<Option<Record>, AllocError>
    ensures { IfOk result (λ state. state ≡ state_at update lists.now) }
{
    let Some((made, ())) = lists.presence.live_at(update, Some(Time::beginning())) else {
        return Ok(None);
    };
    let found = record_at(alloc, lists, update, made)?;
    Ok(Some(found))
}

// The record of a vertex that is there since `made`.
fn record_at(alloc: Global, lists: &Lists, update: u64, made: Time) -> Result<Record, AllocError>
    ensures { IfOk result (λ found. found ≡ record_at update (Some made) lists.now) }
{
    let since = Some(made);
    let props = values_at(alloc, &lists.props, update, since)?;
    let edges = edges_at(alloc, &lists.edges, update, since)?;
    Ok(Record { props, edges })
}

fn edges_at(
    alloc: Global,
    edges: &NameMap<EdgeItems>,
    update: u64,
    since: Option<Time>,
) -> Result<NameMap<Edge>, AllocError>
    ensures { IfOk result (λ found. found ≡ edges_at update since edges.now) }
{
    let pairs = edges.as_slice();
    let found = edge_pairs_at(alloc, pairs, update, since)?;
    NameMap::from_vec(found)
}

fn edge_pairs_at(
    alloc: Global,
    pairs: &[(Name, EdgeItems)],
    update: u64,
    since: Option<Time>,
) -> Result<Vec<(Name, Edge)>, AllocError>
    ensures { IfOk result (λ found. found.items ≡ kept_values (edge_at update since) pairs.now) }
{
    let mut found = Vec::with_capacity(alloc, pairs.len())?;
    for (name, items) in pairs {
        if let Some(edge) = items.edge_at(alloc, update, since)? {
            found.push((*name, edge))?;
        }
    }
    Ok(found)
}
