//! The rows of the table of operations that change the tags of an edge.
ghost use Rattle.std.specs.Prelude.{Some};
ghost use Rattle.graph_ops.specs.declared.op.Op.TheVariants.{Tag, Untag};
ghost use Rattle.graph_ops.specs.declared.tags.TagChange.TheVariants.{Put, Drop};
ghost use Rattle.graph_ops.specs.Operations.{outcome_of_op};
ghost use Rattle.graph_ops.specs.TagChanges.{tags_after, edge_after, DoesToTags};
ghost use Rattle.graph_ops.specs.TakingBack.{HasOutcome};

use crate::back::{Back, Change};
use crate::op::{Answered, OpFault, Reason};
use crate::record::{Edge, MOST_TAGS, Record};
use std::alloc::Global;
use weave_data::{Name, NameMap, Undo};

// A change of an edge's tags.
#[derive(Clone, Copy)]
pub(crate) enum TagChange {
    Put { key: Name, value: Name },
    Drop { key: Name },
}

pub(crate) fn tag(
    alloc: Global,
    state: &mut Option<Record>,
    edge: Name,
    key: Name,
    value: Name,
) -> Result<Change, OpFault>
    ensures { (v : _) → HasOutcome (outcome_of_op (Tag v edge key value) state.old) state.old state.new result }
{
    let Some(record) = state else {
        return Err(OpFault::Refused(Reason::Missing));
    };
    change_edge(alloc, record, edge, TagChange::Put { key, value })
}

pub(crate) fn untag(
    alloc: Global,
    state: &mut Option<Record>,
    edge: Name,
    key: Name,
) -> Result<Change, OpFault>
    ensures { (v : _) → HasOutcome (outcome_of_op (Untag v edge key) state.old) state.old state.new result }
{
    let Some(record) = state else {
        return Err(OpFault::Refused(Reason::Missing));
    };
    change_edge(alloc, record, edge, TagChange::Drop { key })
}

// Changes the tags of an edge.
fn change_edge(
    alloc: Global,
    held: &mut Record,
    name: Name,
    change: TagChange,
) -> Result<Change, OpFault>
    ensures { HasOutcome (edge_after change name held.old) (Some held.old) (Some held.new) result }
{
    let edges = &mut held.edges;
    if !edges.has(name) {
        return Err(OpFault::Refused(Reason::NoEdge));
    }
    let mut edge = edges.swap(name, Edge::bare(alloc, name));
    let outcome = change_tags(alloc, &mut edge.tags, change);
    edges.swap(name, edge);
    match outcome {
        Ok(undo) => Ok(Change {
            answered: Answered::Done,
            back: Back::Tags { edge: name, undo },
        }),
        Err(fault) => Err(fault),
    }
}

fn change_tags(
    alloc: Global,
    tags: &mut NameMap<Name>,
    change: TagChange,
) -> Result<Undo<Name>, OpFault>
    ensures { DoesToTags (tags_after change tags.old) tags.old tags.new result }
{
    match change {
        TagChange::Put { key, value } => put_tag(tags, key, value),
        TagChange::Drop { key } => drop_tag(alloc, tags, key),
    }
}

fn put_tag(tags: &mut NameMap<Name>, key: Name, value: Name) -> Result<Undo<Name>, OpFault>
    ensures { DoesToTags (tags_after (Put key value) tags.old) tags.old tags.new result }
{
    if tags.is_full(key, MOST_TAGS) {
        return Err(OpFault::Refused(Reason::Full));
    }
    Ok(tags.insert(key, value)?)
}

fn drop_tag(alloc: Global, tags: &mut NameMap<Name>, key: Name) -> Result<Undo<Name>, OpFault>
    ensures { DoesToTags (tags_after (Drop key) tags.old) tags.old tags.new result }
{
    if !tags.has(key) {
        return Err(OpFault::Refused(Reason::NoKey));
    }
    Ok(tags.take(alloc, key)?)
}
