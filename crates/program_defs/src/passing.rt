//! Which edges pass.
ghost use Rattle.std.specs.Prelude.{◌≡◌};
ghost use Rattle.weave_data.specs.Pairs.{at_key};
ghost use Rattle.program_defs.specs.Walks.{filter_in, is_value, passes_edge, passing_of};

use crate::prices::price_of;
use crate::program::Filter;
use graph_ops::Edge;
use weave_data::Name;

/// Which edges pass.
#[derive(Clone, Copy)]
pub enum Passing {
    Every,
    /// Those whose tag at the key has the value.
    Tagged(Filter),
    /// Those whose tag at this key says a price.
    Priced(Name),
}

impl Passing {
    /// Those that pass the filter of a program: without one, every edge.
    pub fn of(pass: Option<Filter>) -> Passing
        ensures passing { result ≡ passing_of pass }
        ensures filter { filter_in result ≡ pass }
    {
        match pass {
            None => Passing::Every,
            Some(only) => Passing::Tagged(only),
        }
    }
}

/// Whether an edge passes.
pub fn passes(pass: &Passing, edge: &Edge) -> bool
    ensures { result ≡ passes_edge pass.now edge.now }
{
    match *pass {
        Passing::Every => true,
        Passing::Tagged(only) => is_tagged(only, edge),
        Passing::Priced(key) => price_of(edge, key).is_some(),
    }
}

// Whether the edge has the value of the filter at its key.
fn is_tagged(only: Filter, edge: &Edge) -> bool
    ensures { result ≡ is_value (at_key only.key edge.now.tags) only.value }
{
    match edge.tags.get(only.key) {
        None => false,
        Some(found) => *found == only.value,
    }
}
