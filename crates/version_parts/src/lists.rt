//! All items of one vertex.
ghost use Rattle.std.specs.Prelude.{◌≡◌, ◌≤◌, ◌∷◌, ◌++◌, IsTrue, IfOk, OnOk, OnErr};
ghost use Rattle.std.specs.Vec.{vec_len, vec_capacity};
ghost use Rattle.weave_data.specs.Pairs.{has, IsRising};
ghost use Rattle.version_parts.specs.Cuts.{cut_edge, cut_edges, cut_lists, has_some, left_edge};
ghost use Rattle.version_parts.specs.KeptValues.{kept_values};
ghost use Rattle.version_parts.specs.Ordered.{TagsRise};
ghost use Rattle.version_parts.specs.Placed.{AllInEdges};
ghost use Rattle.version_parts.specs.States.{with_item_of, no_items};

use crate::cut::Cut;
use crate::edge::EdgeItems;
use crate::maps::cut_tracks;
use crate::track::{Item, Track};
use std::alloc::{AllocError, Global};
use std::mem::replace;
use weave_data::{Name, NameMap};

/// All items of one vertex: of its presence, of each property and of each edge.
#[derive(Drop)]
pub struct Lists {
    pub presence: Track<()>,
    pub props: NameMap<Track<Name>>,
    pub edges: NameMap<EdgeItems>,
}

impl Lists {
    /// No items. It takes no memory.
    pub(crate) fn new(alloc: Global) -> Lists
        ensures { result ≡ no_items }
    {
        Lists {
            presence: Track::new(alloc),
            props: NameMap::new(alloc),
            edges: NameMap::new(alloc),
        }
    }

    /// Drops items. It takes no memory.
    pub(crate) fn cut(&mut self, cut: Cut)
        ensures { self.new ≡ cut_lists cut self.old }
    {
        let alloc = self.presence.alloc();
        let inner = self.presence.inner_cut(cut);
        self.presence.cut(cut);
        cut_tracks(&mut self.props, alloc, inner);
        cut_edges(&mut self.edges, alloc, inner);
    }
}

/// Adds an item of an edge: of its target, or of a tag. The one error is out of memory, and then the lists are as
/// before.
pub(crate) fn add_edge_item(
    edges: &mut NameMap<EdgeItems>,
    alloc: Global,
    name: Name,
    tag: Option<Name>,
    item: Item<Name>,
) -> Result<(), AllocError>
    requires { AllInEdges (λ time. time.update ≤ item.time.update) edges.old }
    ensures ok { OnOk result (edges.new ≡ with_item_of name tag item edges.old) }
    ensures err { OnErr result (edges.new ≡ edges.old) }
    ensures rising { IsRising edges.old }
    ensures tags { TagsRise name edges.old }
{
    // Its clause `rising` is what is to be shown.
    let _ = edges.as_slice();
    if edges.has(name) {
        return add_to_edge(edges, alloc, name, tag, item);
    }
    let mut edge = EdgeItems::new(alloc);
    edge.add(alloc, tag, item)?;
    edges.put(name, edge)
}

// Adds an item of an edge that has lists.
fn add_to_edge(
    edges: &mut NameMap<EdgeItems>,
    alloc: Global,
    name: Name,
    tag: Option<Name>,
    item: Item<Name>,
) -> Result<(), AllocError>
    requires times { AllInEdges (λ time. time.update ≤ item.time.update) edges.old }
    requires there { IsTrue (has name edges.old) }
    ensures ok { OnOk result (edges.new ≡ with_item_of name tag item edges.old) }
    ensures err { OnErr result (edges.new ≡ edges.old) }
    ensures tags { TagsRise name edges.old }
{
    let mut edge = edges.swap(name, EdgeItems::new(alloc));
    edge.keys_rise();
    let added = edge.add(alloc, tag, item);
    edges.swap(name, edge);
    added
}

/// Drops items of each edge, and the lists that are empty then. It takes no memory.
pub(crate) fn cut_edges(edges: &mut NameMap<EdgeItems>, alloc: Global, cut: Cut)
    ensures { edges.new ≡ cut_edges cut edges.old }
{
    let mut pairs = replace(edges, NameMap::new(alloc)).into_vec();
    cut_edge_pairs(&mut pairs, cut);
    match NameMap::from_vec(pairs) {
        Ok(left) => *edges = left,
        Err(_) => unreachable!(),
    }
}

fn cut_edge_pairs(pairs: &mut Vec<(Name, EdgeItems)>, cut: Cut)
    ensures pairs { pairs.new.items ≡ kept_values (left_edge cut) pairs.old.items }
    ensures len { vec_len pairs.new ≤ vec_len pairs.old }
    ensures capacity { vec_capacity pairs.new ≡ vec_capacity pairs.old }
{
    pairs.retain_mut(|pair| cut_edge_pair(pair, cut));
}

// Drops items of an edge, and answers whether it has items left.
fn cut_edge_pair(pair: &mut (Name, EdgeItems), cut: Cut) -> bool
    ensures left { pair.new ≡ (pair.old.0, cut_edge cut pair.old.1) }
    ensures stays { result ≡ has_some (cut_edge cut pair.old.1) }
{
    pair.1.cut(cut);
    pair.1.has_some()
}
