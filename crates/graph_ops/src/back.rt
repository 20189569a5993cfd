//! How an operation is taken back.
ghost use Rattle.std.specs.Prelude.{◌≡◌};
ghost use Rattle.weave_data.specs.Changes.{undone_pairs, Fits};
ghost use Rattle.graph_ops.specs.TakingBack.{taken_back, CanTakeBack, edges_retagged, CanRetag};
ghost use Rattle.graph_ops.specs.declared.back.Back.TheVariants.{Props, Edges, Tags};

use crate::op::Answered;
use crate::record::{Edge, Record};
use std::alloc::Global;
use weave_data::{Name, NameMap, Undo};

/// What takes an operation back, on the state of its vertex.
#[derive(Drop)]
pub(crate) enum Back {
    /// It changed nothing.
    Nothing,
    /// The vertex was absent.
    Absent,
    /// The vertex had this record.
    Present(Record),
    Props(Undo<Name>),
    Edges(Undo<Edge>),
    Tags { edge: Name, undo: Undo<Name> },
}

/// An operation that was done.
#[derive(Drop)]
pub(crate) struct Change {
    pub answered: Answered,
    pub back: Back,
}

/// Takes an operation back. It takes no memory.
pub(crate) fn take_back(alloc: Global, state: &mut Option<Record>, back: Back)
    requires { CanTakeBack back state.old }
    ensures { state.new ≡ taken_back back state.old }
{
    match back {
        Back::Nothing => {}
        Back::Absent => *state = None,
        Back::Present(was) => *state = Some(was),
        Back::Props(undo) => take_back_property(state, undo),
        Back::Edges(undo) => take_back_edge(state, undo),
        Back::Tags { edge, undo } => take_back_tag(alloc, state, edge, undo),
    }
}

fn take_back_property(state: &mut Option<Record>, undo: Undo<Name>)
    requires { CanTakeBack (Props undo) state.old }
    ensures { state.new ≡ taken_back (Props undo) state.old }
{
    let Some(held) = state else {
        return;
    };
    take_back_property_of(held, undo);
}

fn take_back_property_of(held: &mut Record, undo: Undo<Name>)
    requires { Fits undo held.old.props }
    ensures { held.new ≡ record held.old { props = undone_pairs undo held.old.props } }
{
    held.props.take_back(undo);
}

fn take_back_edge(state: &mut Option<Record>, undo: Undo<Edge>)
    requires { CanTakeBack (Edges undo) state.old }
    ensures { state.new ≡ taken_back (Edges undo) state.old }
{
    let Some(held) = state else {
        return;
    };
    take_back_edge_of(held, undo);
}

fn take_back_edge_of(held: &mut Record, undo: Undo<Edge>)
    requires { Fits undo held.old.edges }
    ensures { held.new ≡ record held.old { edges = undone_pairs undo held.old.edges } }
{
    held.edges.take_back(undo);
}

fn take_back_tag(alloc: Global, state: &mut Option<Record>, edge: Name, undo: Undo<Name>)
    requires { CanTakeBack (Tags edge undo) state.old }
    ensures { state.new ≡ taken_back (Tags edge undo) state.old }
{
    let Some(held) = state else {
        return;
    };
    take_back_tag_in(alloc, held, edge, undo);
}

fn take_back_tag_in(alloc: Global, held: &mut Record, edge: Name, undo: Undo<Name>)
    requires { CanRetag edge undo held.old.edges }
    ensures { held.new ≡ record held.old { edges = edges_retagged edge undo held.old.edges } }
{
    take_back_tag_of(alloc, &mut held.edges, edge, undo);
}

fn take_back_tag_of(alloc: Global, edges: &mut NameMap<Edge>, name: Name, undo: Undo<Name>)
    requires { CanRetag name undo edges.old }
    ensures { edges.new ≡ edges_retagged name undo edges.old }
{
    if !edges.has(name) {
        return;
    }
    let mut edge = edges.swap(name, Edge::bare(alloc, name));
    edge.tags.take_back(undo);
    edges.swap(name, edge);
}
