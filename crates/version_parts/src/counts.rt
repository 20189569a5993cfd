//! How many items there are.
ghost use Rattle.std.specs.Prelude.{◌≡◌, ◌<◌, ◌^◌, true};
ghost use Rattle.version_parts.specs.Counts.{total, count_items, count_edge, count_in_lists};

use crate::edge::EdgeItems;
use crate::lists::Lists;
use crate::track::Track;
use weave_data::{Name, NameMap};

/// How many items a vertex has.
pub(crate) fn count_of(lists: &Lists) -> u64
    requires { count_in_lists lists.now < 2 ^ 64 }
    ensures { result ≡ count_in_lists lists.now }
{
    let props = count_tracks(&lists.props);
    let edges = count_edges(&lists.edges);
    lists.presence.len() as u64 + (props + edges)
}

fn count_tracks(tracks: &NameMap<Track<Name>>) -> u64
    requires { total (count_items (λ update. true)) tracks.now < 2 ^ 64 }
    ensures { result ≡ total (count_items (λ update. true)) tracks.now }
{
    count_pairs(tracks.as_slice())
}

fn count_pairs(pairs: &[(Name, Track<Name>)]) -> u64
    requires { total (count_items (λ update. true)) pairs.now < 2 ^ 64 }
    ensures { result ≡ total (count_items (λ update. true)) pairs.now }
{
    let mut count = 0;
    for pair in pairs {
        count += pair.1.len() as u64;
    }
    count
}

fn count_edges(edges: &NameMap<EdgeItems>) -> u64
    requires { total (count_edge (λ update. true)) edges.now < 2 ^ 64 }
    ensures { result ≡ total (count_edge (λ update. true)) edges.now }
{
    count_edge_pairs(edges.as_slice())
}

fn count_edge_pairs(pairs: &[(Name, EdgeItems)]) -> u64
    requires { total (count_edge (λ update. true)) pairs.now < 2 ^ 64 }
    ensures { result ≡ total (count_edge (λ update. true)) pairs.now }
{
    let mut count = 0;
    for pair in pairs {
        count += count_edge(&pair.1);
    }
    count
}

fn count_edge(edge: &EdgeItems) -> u64
    requires { count_edge (λ update. true) edge.now < 2 ^ 64 }
    ensures { result ≡ count_edge (λ update. true) edge.now }
{
    edge.targets.len() as u64 + count_tracks(&edge.tags)
}
