//! When a head can be applied.
ghost use Rattle.std.specs.Prelude.{◌≡◌};
ghost use Rattle.version_chain.specs.Chains.{update_count};
ghost use Rattle.version_graph.specs.Graphs.{chain_of, chain_or_new};
ghost use Rattle.shard_node.specs.Keeping.{first_differing};

use graph_ops::Part;
use version_graph::VersionGraph;
use weave_data::Name;

/// How many updates were applied to a vertex.
pub(crate) fn count_at(graph: &VersionGraph, vertex: Name) -> u64
    ensures { result ≡ update_count (chain_or_new (chain_of graph.now vertex)) }
{
    let Some(chain) = graph.chain(vertex) else {
        return 0;
    };
    chain.count()
}

/// The first vertex whose count is not the number of updates applied to it.
pub(crate) fn first_waiting(graph: &VersionGraph, parts: &[Part]) -> Option<Name>
    ensures { result ≡ first_differing graph.now parts.now }
{
    for part in parts {
        if part.before != count_at(graph, part.vertex) {
            return Some(part.vertex);
        }
    }
    None
}
