//! The passing edges that were read.
ghost use Rattle.std.specs.Prelude.{◌≡◌, ◌≤◌, ◌<◌, ◌+◌, ◌++◌, Some, length, option_copied, option_to_list, vec_len, vec_capacity};
ghost use Rattle.program_defs.specs.Prices.{priced_edge, priced_edges};
ghost use Rattle.program_defs.specs.Searching.{edges_of};
ghost use Rattle.priced_path.specs.Kept.{as_kept};

use graph_ops::{Edge, Record};
use program_defs::price_of;
use weave_data::Name;

/// A passing edge that was read, with its price.
#[derive(Clone, Copy)]
pub struct KeptEdge {
    pub from: Name,
    pub target: Name,
    pub price: u32,
}

/// Keeps the passing edges of a vertex in this state. There is room for them.
pub fn keep(edges: &mut Vec<KeptEdge>, v: Name, key: Name, state: Option<&Record>)
    requires { vec_len edges.old + edges_of (option_copied state) ≤ vec_capacity edges.old }
    ensures { edges.new.items ≡ edges.old.items ++ as_kept v (priced_edges key (option_copied state.entry)) }
{
    if let Some(found) = state {
        keep_all(edges, v, key, found);
    }
}

// Keeps the passing edges of a vertex that is there.
fn keep_all(edges: &mut Vec<KeptEdge>, v: Name, key: Name, found: &Record)
    requires { vec_len edges.old + length found.now.edges ≤ vec_capacity edges.old }
    ensures { edges.new.items ≡ edges.old.items ++ as_kept v (priced_edges key (Some found.now)) }
{
    for (_name, edge) in found.edges.as_slice() {
        keep_one(edges, v, key, edge);
    }
}

// Keeps an edge of a vertex if it passes.
fn keep_one(edges: &mut Vec<KeptEdge>, v: Name, key: Name, edge: &Edge)
    requires { vec_len edges.old < vec_capacity edges.old }
    ensures kept { edges.new.items ≡ edges.old.items ++ as_kept v (option_to_list (priced_edge key edge.now)) }
    ensures len { vec_len edges.new ≤ vec_len edges.old + 1 }
    ensures capacity { vec_capacity edges.new ≡ vec_capacity edges.old }
{
    let Some(price) = price_of(edge, key) else {
        return;
    };
    edges.push_reserved(KeptEdge {
        from: v,
        target: edge.target,
        price,
    });
}
