//! The answer over what was read.
ghost use Rattle.std.specs.Prelude.{◌≡◌, None, IsTrue, IfOk};
ghost use Rattle.weave_data.specs.declared.name.Name.{Name};
ghost use Rattle.graph_ops.specs.PlainGraph.{PlainGraph};
ghost use Rattle.program_defs.specs.PlainAnswer.{IsPlainAnswer};
ghost use Rattle.program_defs.specs.Rising.{is_rising};
ghost use Rattle.program_defs.specs.declared.program.Program.TheVariants.{Price};
ghost use Rattle.priced_path.specs.Kept.{ArePriced, IsAnswerOver};

use crate::kept_edge::KeptEdge;
use crate::least::least_prices;
use crate::rows::rows_of;
use program_defs::laws::absent_starts_lead_nowhere;
use program_defs::{Answer, place_among, priced_answer};
use std::alloc::{AllocError, Global};
use weave_data::{Items, Name};

/// What `price` answers on a graph with these vertices and these passing edges. The one error is out of memory.
pub fn answer_of(
    alloc: Global,
    vertices: &[Name],
    edges: &[KeptEdge],
    from: Name,
    to: Name,
) -> Result<Answer, AllocError>
    requires rising { IsTrue (is_rising vertices.now) }
    requires priced { ArePriced edges.now }
    ensures { IfOk result (λ answer. IsAnswerOver vertices.now edges.now from to answer) }
{
    let Some(start) = place_among(vertices, from) else {
        return Ok(nowhere(alloc));
    };
    let rows = rows_of(alloc, vertices, edges)?;
    let labels = least_prices(alloc, rows.as_slice(), start)?;
    priced_answer(alloc, vertices, rows.as_slice(), labels.as_slice(), to)
}

// The answer if the start isn't there. It takes no memory.
fn nowhere(alloc: Global) -> Answer
    ensures { (graph : PlainGraph) (from to key : Name) → graph from ≡ None
        → IsPlainAnswer graph (Price from to key) result }
{
    absent_starts_lead_nowhere();
    Answer::Priced {
        walk: None,
        total: 0,
        bounds: Items::new(alloc),
    }
}
