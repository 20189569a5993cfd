//! The table of operations, and its rows, each on the state of its vertex.
ghost use Rattle.std.specs.Prelude.{◌≡◌, Some, Ok, Err, IfOk, OnErr};
ghost use Rattle.graph_ops.specs.declared.op.Op.TheVariants.{Create, Delete, Set, Unset, Link, Unlink, Get};
ghost use Rattle.graph_ops.specs.Operations.{outcome_of_op, IfRefused};
ghost use Rattle.graph_ops.specs.TakingBack.{HasOutcome};

use crate::back::{Back, Change};
use crate::op::{Answered, Op, OpFault, Reason};
use crate::record::{Edge, MOST_EDGES, MOST_PROPS, Record};
use crate::tags;
use std::alloc::Global;
use weave_data::{Copied, Name, NameMap};

/// Does an operation to a vertex's state, by the table of operations; a join as a link, with no look at its target.
/// After either fault the state is as before.
pub fn apply_op(alloc: Global, state: &mut Option<Record>, op: &Op) -> Result<Answered, OpFault>
    ensures done { IfOk result (λ answered. outcome_of_op op.now state.old ≡ Ok (state.new, answered)) }
    ensures refused { IfRefused result (λ reason. outcome_of_op op.now state.old ≡ Err reason) }
    ensures unchanged { OnErr result (state.new ≡ state.old) }
{
    match do_op(alloc, state, op) {
        Ok(change) => Ok(change.answered),
        Err(fault) => Err(fault),
    }
}

/// Does an operation to a vertex's state, and notes how it is taken back.
pub(crate) fn do_op(alloc: Global, state: &mut Option<Record>, op: &Op) -> Result<Change, OpFault>
    ensures { HasOutcome (outcome_of_op op.now state.old) state.old state.new result }
{
    match *op {
        Op::Create { .. } => create(alloc, state),
        Op::Delete { .. } => delete(state),
        Op::Set { key, value, .. } => set(state, key, value),
        Op::Unset { key, .. } => unset(alloc, state, key),
        Op::Link { edge, target, .. } => link(state, alloc, edge, target),
        Op::Join { edge, target, .. } => link(state, alloc, edge, target),
        Op::Unlink { edge, .. } => unlink(alloc, state, edge),
        Op::Tag {
            edge,
            key,
            value,
            ..
        } => tags::tag(alloc, state, edge, key, value),
        Op::Untag { edge, key, .. } => tags::untag(alloc, state, edge, key),
        Op::Get { .. } => get(alloc, state),
    }
}

pub(crate) fn create(alloc: Global, state: &mut Option<Record>) -> Result<Change, OpFault>
    ensures { (v : _) → HasOutcome (outcome_of_op (Create v) state.old) state.old state.new result }
{
    if state.is_some() {
        return Err(OpFault::Refused(Reason::Exists));
    }
    *state = Some(Record {
        props: NameMap::new(alloc),
        edges: NameMap::new(alloc),
    });
    Ok(Change {
        answered: Answered::Done,
        back: Back::Absent,
    })
}

pub(crate) fn delete(state: &mut Option<Record>) -> Result<Change, OpFault>
    ensures { (v : _) → HasOutcome (outcome_of_op (Delete v) state.old) state.old state.new result }
{
    let Some(was) = state.take() else {
        return Err(OpFault::Refused(Reason::Missing));
    };
    Ok(Change {
        answered: Answered::Done,
        back: Back::Present(was),
    })
}

pub(crate) fn set(state: &mut Option<Record>, key: Name, value: Name) -> Result<Change, OpFault>
    ensures { (v : _) → HasOutcome (outcome_of_op (Set v key value) state.old) state.old state.new result }
{
    let Some(record) = state else {
        return Err(OpFault::Refused(Reason::Missing));
    };
    if record.props.is_full(key, MOST_PROPS) {
        return Err(OpFault::Refused(Reason::Full));
    }
    let undo = record.props.insert(key, value)?;
    Ok(Change {
        answered: Answered::Done,
        back: Back::Props(undo),
    })
}

pub(crate) fn unset(alloc: Global, state: &mut Option<Record>, key: Name) -> Result<Change, OpFault>
    ensures { (v : _) → HasOutcome (outcome_of_op (Unset v key) state.old) state.old state.new result }
{
    let Some(record) = state else {
        return Err(OpFault::Refused(Reason::Missing));
    };
    if !record.props.has(key) {
        return Err(OpFault::Refused(Reason::NoKey));
    }
    let undo = record.props.take(alloc, key)?;
    Ok(Change {
        answered: Answered::Done,
        back: Back::Props(undo),
    })
}

pub(crate) fn link(
    state: &mut Option<Record>,
    alloc: Global,
    edge: Name,
    target: Name,
) -> Result<Change, OpFault>
    ensures { (v : _) → HasOutcome (outcome_of_op (Link v edge target) state.old) state.old state.new result }
{
    let Some(record) = state else {
        return Err(OpFault::Refused(Reason::Missing));
    };
    if record.edges.has(edge) {
        return Err(OpFault::Refused(Reason::EdgeExists));
    }
    if MOST_EDGES <= record.edges.len() {
        return Err(OpFault::Refused(Reason::Full));
    }
    let undo = record.edges.insert(edge, Edge::bare(alloc, target))?;
    Ok(Change {
        answered: Answered::Done,
        back: Back::Edges(undo),
    })
}

pub(crate) fn unlink(
    alloc: Global,
    state: &mut Option<Record>,
    edge: Name,
) -> Result<Change, OpFault>
    ensures { (v : _) → HasOutcome (outcome_of_op (Unlink v edge) state.old) state.old state.new result }
{
    let Some(record) = state else {
        return Err(OpFault::Refused(Reason::Missing));
    };
    if !record.edges.has(edge) {
        return Err(OpFault::Refused(Reason::NoEdge));
    }
    let undo = record.edges.take(alloc, edge)?;
    Ok(Change {
        answered: Answered::Done,
        back: Back::Edges(undo),
    })
}

pub(crate) fn get(alloc: Global, state: &Option<Record>) -> Result<Change, OpFault>
    ensures { (v : _) → HasOutcome (outcome_of_op (Get v) state.now) state.now state.now result }
{
    Ok(Change {
        answered: Answered::Got(state.copy(alloc)?),
        back: Back::Nothing,
    })
}
