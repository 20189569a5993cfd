//! Rows of the kept edges by the numbers of vertices, which are their places in byte order.
ghost use Rattle.std.specs.Prelude.{ℕ, ◌≡◌, ◌∷◌, ◌++◌, [], List, IsTrue, IfOk, OnOk, length};
ghost use Rattle.program_defs.specs.Labels.{row_in};
ghost use Rattle.program_defs.specs.Rising.{is_rising};
ghost use Rattle.priced_path.specs.Kept.{AreRowsKept};
ghost use Rattle.priced_path.specs.declared.kept_edge.KeptEdge.{KeptEdge};

use crate::kept_edge::KeptEdge;
use program_defs::{Row, place_among};
use std::alloc::{AllocError, Global};
use weave_data::Name;

/// Of each vertex the edges to others of these vertices. The one error is out of memory.
pub fn rows_of(alloc: Global, vertices: &[Name], edges: &[KeptEdge]) -> Result<Vec<Row>, AllocError>
    requires { IsTrue (is_rising vertices.now) }
    ensures { IfOk result (λ rows. AreRowsKept vertices.now edges.now rows.items) }
{
    let mut rows = empty_rows(alloc, vertices.len())?;
    for edge in edges {
        add_edge(&mut rows, vertices, edge)?;
    }
    Ok(rows)
}

// Rows without edges.
fn empty_rows(alloc: Global, count: usize) -> Result<Vec<Row>, AllocError>
    ensures len { IfOk result (λ rows. length rows.items ≡ count) }
    ensures empty { IfOk result (λ rows. (i : ℕ) → row_in rows.items i ≡ []) }
{
    let mut rows = Vec::with_capacity(alloc, count)?;
    for _at in 0..count {
        rows.push(Row::new(alloc))?;
    }
    Ok(rows)
}

// Adds an edge to the row of its vertex, if both its ends are among the vertices.
fn add_edge(rows: &mut Vec<Row>, vertices: &[Name], edge: &KeptEdge) -> Result<(), AllocError>
    requires rising { IsTrue (is_rising vertices.now) }
    requires len { length rows.old.items ≡ length vertices.now }
    ensures { OnOk result ((done : List KeptEdge) → AreRowsKept vertices.now done rows.old.items
        → AreRowsKept vertices.now (done ++ edge.now ∷ []) rows.new.items) }
{
    let Some(at) = place_among(vertices, edge.from) else {
        return Ok(());
    };
    let Some(target) = place_among(vertices, edge.target) else {
        return Ok(());
    };
    rows[at].push(target, edge.price)?;
    Ok(())
}
