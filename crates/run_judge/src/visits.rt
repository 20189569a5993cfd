//! The vertices at which a request is: those that a transaction names, and those that a program visits.
ghost use Rattle.std.specs.Prelude.{◌≡◌, ◌↔◌, ◌∷◌, [], Some, IsTrue, IfOk};
ghost use Rattle.weave_data.specs.declared.name.Name.{Name};
ghost use Rattle.graph_ops.specs.Graphs.{plain_of};
ghost use Rattle.graph_ops.specs.Mentions.{is_among};
ghost use Rattle.program_defs.specs.declared.program.Program.{Program};
ghost use Rattle.program_defs.specs.Searching.{aim_of};
ghost use Rattle.program_defs.specs.Visits.{IsVisited};
ghost use Rattle.run_judge.specs.Vertices.{IsOn};

use graph_ops::{Graph, named};
use program_defs::{Aim, Program, Search, Work};
use std::alloc::{AllocError, Global};
use weave_data::Name;

/// The vertices at which work is, if this is the graph at its place.
pub fn vertices_of(alloc: Global, graph: &Graph, work: &Work) -> Result<Vec<Name>, AllocError>
    ensures { IfOk result (λ names. (v : Name) → IsTrue (is_among names.items v)
        ↔ IsOn (plain_of graph.now) v work.now) }
{
    match work {
        Work::Change(ops) => named(alloc, ops.as_slice()),
        Work::Look(program) => visits_of(alloc, graph, program),
    }
}

// The vertices that a program visits on a graph.
fn visits_of(alloc: Global, graph: &Graph, program: &Program) -> Result<Vec<Name>, AllocError>
    ensures { IfOk result (λ visits. (v : Name) → IsTrue (is_among visits.items v)
        ↔ IsVisited (plain_of graph.now) program.now v) }
{
    match *program {
        Program::Show { v } => only(alloc, v),
        Program::Reach { from, to, pass } => {
            let aim = Aim::reach(from, to, pass);
            searched(alloc, graph, aim)
        }
        Program::Around { from, bound, pass } => {
            let aim = Aim::around(from, bound, pass);
            searched(alloc, graph, aim)
        }
        Program::Path {
            from,
            to,
            bound,
            pass,
        } => {
            let aim = Aim::path(from, to, bound, pass);
            searched(alloc, graph, aim)
        }
        Program::Price { from, to: _to, key } => {
            let aim = Aim::price(from, key);
            searched(alloc, graph, aim)
        }
    }
}

fn only(alloc: Global, v: Name) -> Result<Vec<Name>, AllocError>
    ensures { IfOk result (λ names. names.items ≡ v ∷ []) }
{
    let mut names = Vec::new(alloc);
    names.push(v)?;
    Ok(names)
}

// The vertices that a search of the whole graph reads, in order.
fn searched(alloc: Global, graph: &Graph, aim: Aim) -> Result<Vec<Name>, AllocError>
    requires { (program : Program) × (aim_of program ≡ Some aim) }
    ensures { IfOk result (λ visits. (program : Program) → aim_of program ≡ Some aim
        → (v : Name) → IsTrue (is_among visits.items v) ↔ IsVisited (plain_of graph.now) program v) }
{
    let mut visits = Vec::new(alloc);
    let mut search = Search::new(alloc, aim)?;
    while let Some(v) = search.next() {
        let state = graph.find(v);
        let edges = match state {
            None => 0,
            Some(found) => found.edges.len(),
        };
        let Some(names) = edges.checked_add(1) else {
            return Err(AllocError);
        };
        visits.push(v)?;
        search.reserve(names)?;
        search.see(state);
    }
    Ok(visits)
}
