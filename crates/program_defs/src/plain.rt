//! The plain answer of a program, found by searches of the graph.
ghost use Rattle.std.specs.Prelude.{◌≡◌, ◌↔◌, [], false, IsTrue, Some, IfOk};
ghost use Rattle.weave_data.specs.declared.name.Name.{Name};
ghost use Rattle.graph_ops.specs.Graphs.{plain_of};
ghost use Rattle.program_defs.specs.declared.program.Program.{Program};
ghost use Rattle.program_defs.specs.Asking.{HasReadVisits, HasWalkedVisits};
ghost use Rattle.program_defs.specs.PlainAnswer.{IsPlainAnswer, is_price};
ghost use Rattle.program_defs.specs.Searching.{aim_of, has_name};
ghost use Rattle.program_defs.specs.Visits.{IsVisited};

use crate::aim::Aim;
use crate::path_search::PathSearch;
use crate::program::{Answer, Program};
use crate::search::Search;
use crate::visits::Visits;
use graph_ops::{Graph, Record};
use std::alloc::{AllocError, Global};
use weave_data::{Copied, Name};

/// What a program answers on a graph, and which vertices it visits there.
#[derive(Drop)]
pub struct Asked {
    pub answer: Answer,
    pub visits: Visits,
}

/// The plain answer of a program on a graph, if it asks for no price. The one error is out of memory.
pub fn ask(alloc: Global, graph: &Graph, program: &Program) -> Result<Answer, AllocError>
    requires { is_price program.now ≡ false }
    ensures { IfOk result (IsPlainAnswer (plain_of graph.now) program.now) }
{
    let Asked { answer, .. } = ask_with_visits(alloc, graph, program)?;
    Ok(answer)
}

/// The plain answer of a program on a graph, if it asks for no price, and the vertices that it visits there, by one
/// search. The one error is out of memory.
pub fn ask_with_visits(alloc: Global, graph: &Graph, program: &Program) -> Result<Asked, AllocError>
    requires { is_price program.now ≡ false }
    ensures answer { IfOk result (λ asked. IsPlainAnswer (plain_of graph.now) program.now asked.answer) }
    ensures visits { IfOk result (λ asked. (v : Name)
        → IsTrue (has_name asked.visits v) ↔ IsVisited (plain_of graph.now) program.now v) }
{
    let mut visits = Visits::new(alloc);
    match *program {
        Program::Show { v } => {
            visits.put(v)?;
            let answer = Answer::Shown(state_of(alloc, graph, v)?);
            Ok(Asked { answer, visits })
        }
        Program::Reach { from, to, pass } => {
            let aim = Aim::reach(from, to, pass);
            let search = searched(alloc, graph, aim, &mut visits)?;
            let answer = Answer::Reached(search.is_present(to));
            Ok(Asked { answer, visits })
        }
        Program::Around { from, bound, pass } => {
            let aim = Aim::around(from, bound, pass);
            let search = searched(alloc, graph, aim, &mut visits)?;
            let answer = Answer::Found(search.present()?);
            Ok(Asked { answer, visits })
        }
        Program::Path {
            from,
            to,
            bound,
            pass,
        } => {
            let aim = Aim::path(from, to, bound, pass);
            let search = walked(alloc, graph, aim, &mut visits)?;
            let answer = Answer::Walk(search.walk(alloc)?);
            Ok(Asked { answer, visits })
        }
        // The condition excludes it.
        Program::Price { .. } => Err(AllocError),
    }
}

/// The vertices that a `price` visits on a graph, by a search level by level. The one error is out of memory.
pub fn visits_of(alloc: Global, graph: &Graph, program: &Program) -> Result<Visits, AllocError>
    requires { IsTrue (is_price program.now) }
    ensures { IfOk result (λ visits. (v : Name)
        → IsTrue (has_name visits v) ↔ IsVisited (plain_of graph.now) program.now v) }
{
    let mut visits = Visits::new(alloc);
    let Program::Price { from, to: _to, key } = *program else {
        return Ok(visits);
    };
    let aim = Aim::price(from, key);
    searched(alloc, graph, aim, &mut visits)?;
    Ok(visits)
}

fn state_of(alloc: Global, graph: &Graph, v: Name) -> Result<Option<Record>, AllocError>
    ensures { IfOk result (λ state. state ≡ plain_of graph.now v) }
{
    match graph.find(v) {
        None => Ok(None),
        Some(found) => Ok(Some(found.copy(alloc)?)),
    }
}

// The search of the whole graph, and what it read.
fn searched(
    alloc: Global,
    graph: &Graph,
    aim: Aim,
    visits: &mut Visits,
) -> Result<Search, AllocError>
    requires program { (program : Program) × (aim_of program ≡ Some aim) }
    requires none { visits.old ≡ [] }
    ensures { IfOk result (λ search. (program : Program) → aim_of program ≡ Some aim
        → HasReadVisits program (plain_of graph.now) search visits.new) }
{
    let mut search = Search::new(alloc, aim)?;
    while let Some(v) = search.next() {
        let state = graph.find(v);
        let edges = match state {
            None => 0,
            Some(found) => found.edges.len(),
        };
        let Some(names) = edges.checked_add(1) else {
            return Err(AllocError);
        };
        visits.put(v)?;
        search.reserve(names)?;
        search.see(state);
    }
    Ok(search)
}

// The search for the least walk of the whole graph, and what it read.
fn walked(
    alloc: Global,
    graph: &Graph,
    aim: Aim,
    visits: &mut Visits,
) -> Result<PathSearch, AllocError>
    requires program { (program : Program) × (aim_of program ≡ Some aim) }
    requires none { visits.old ≡ [] }
    ensures { IfOk result (λ walk. (program : Program) → aim_of program ≡ Some aim
        → HasWalkedVisits program (plain_of graph.now) walk visits.new) }
{
    let mut search = PathSearch::new(alloc, aim)?;
    while let Some(v) = search.next() {
        let state = graph.find(v);
        let edges = match state {
            None => 0,
            Some(found) => found.edges.len(),
        };
        let Some(names) = edges.checked_add(1) else {
            return Err(AllocError);
        };
        visits.put(v)?;
        search.reserve(names)?;
        search.see(state);
    }
    Ok(search)
}
