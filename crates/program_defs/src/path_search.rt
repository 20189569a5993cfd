//! The search for the least walk, level by level.
ghost use Rattle.std.specs.Prelude.{ℕ, ◌≡◌, ◌≤◌, ◌+◌, ◌++◌, ◌∷◌, [], IsTrue, is_some, if◌then◌else◌, List, Option, Some, None, length, IfOk, OnOk, option_copied, nat_le, reverse, vec_len, vec_capacity};
ghost use Rattle.std.specs.HashMap.{spare};
ghost use Rattle.weave_data.specs.declared.name.Name.{Name};
ghost use Rattle.graph_ops.specs.Operations.{State};
ghost use Rattle.program_defs.specs.declared.passing.Passing.{Passing};
ghost use Rattle.program_defs.specs.declared.program.Filter.{Filter};
ghost use Rattle.program_defs.specs.declared.program.Program.{Program};
ghost use Rattle.program_defs.specs.declared.program.Program.TheVariants.{Path};
ghost use Rattle.program_defs.specs.declared.program.Answer.TheVariants.{Walk};
ghost use Rattle.program_defs.specs.PlainAnswer.{IsPlainAnswer};
ghost use Rattle.program_defs.specs.Searching.{aim_of, next_of, edges_of};
ghost use Rattle.graph_ops.specs.Mentions.{is_among};
ghost use Rattle.graph_ops.specs.PlainGraph.{PlainGraph};
ghost use Rattle.program_defs.specs.Ranks.{trace};
ghost use Rattle.program_defs.specs.Visits.{graph_read, levels_to};
ghost use Rattle.program_defs.specs.LeastWalks.{HasWalked, SameWalked, IsMarkedBy, IsRankedTo, mark_in, marks_after, with_mark, parents, ranks, hops_from};
ghost use Rattle.program_defs.specs.Walks.{targets};

use crate::aim::Aim;
use crate::passing::{Passing, passes};
use crate::search::Search;
use graph_ops::Record;
use std::alloc::{AllocError, Global};
use std::collections::HashMap;
use std::marker::Model;
use weave_data::{Items, Name};

/// What is known of a vertex that was reached: the vertex before it on the least walk, and its place in the order of
/// the least walks.
#[derive(Clone, Copy)]
pub struct Mark {
    pub parent: Name,
    pub rank: usize,
}

/// A passing edge, from a vertex of this rank.
#[derive(Clone, Copy, PartialEq, Eq, PartialOrd, Ord)]
pub struct Hop {
    pub rank: usize,
    pub target: Name,
    pub parent: Name,
}

/// A search for the least walk, fed with the states of the vertices that it asks for.
#[derive(Drop)]
pub struct PathSearch {
    search: Search,
    marks: HashMap<Name, Mark>,
    hops: Vec<Hop>,
}

impl Model for PathSearch {
    ghost use Rattle.std.specs.Prelude.{◌-◌, min, vec_len, vec_capacity};
    ghost use Rattle.std.specs.HashMap.{spare};
    ghost use Rattle.program_defs.specs.LeastWalks.{WalkState};

    ghost Value = { WalkState };

    ghost view = { λ s. record {
      search = s.search;
      marks = s.marks.entries;
      hops = s.hops.items;
      room = min s.search.room (min (spare s.marks - vec_len s.hops) (vec_capacity s.hops - vec_len s.hops));
    } };
}

impl PathSearch {
    /// The search before its first read.
    pub fn new(alloc: Global, aim: Aim) -> Result<PathSearch, AllocError>
        ensures aim { IfOk result (λ walk. walk.search.aim ≡ aim) }
        ensures reads { IfOk result (λ walk. (program : Program) → aim_of program ≡ Some aim
            → HasWalked program walk []) }
    {
        let marks = first_mark(alloc, aim.from)?;
        let search = Search::new(alloc, aim)?;
        Ok(PathSearch {
            search,
            marks,
            hops: Vec::new(alloc),
        })
    }

    /// The vertex to be read next.
    pub fn next(&self) -> Option<Name>
        ensures { result ≡ next_of self.now.search }
    {
        self.search.next()
    }

    /// Takes room for that many names: a read needs one more than the vertex has edges. Nothing else changes.
    pub fn reserve(&mut self, names: usize) -> Result<(), AllocError>
        ensures room { OnOk result (names ≤ self.new.room) }
        ensures less { self.old.room ≤ self.new.room }
        ensures same { SameWalked self.old self.new }
    {
        let Some(places) = self.hops.len().checked_add(names) else {
            return Err(AllocError);
        };
        self.search.reserve(names)?;
        self.hops.reserve(names)?;
        self.marks.reserve(places)?;
        Ok(())
    }

    /// Reads the next vertex in this state. It takes no memory.
    pub fn see(&mut self, state: Option<&Record>)
        requires room { edges_of (option_copied state) + 1 ≤ self.old.room }
        ensures aim { self.new.search.aim ≡ self.old.search.aim }
        ensures reads { (program : Program) (v : Name) (reads : List (Name × State)) → next_of self.old.search ≡ Some v
            → HasWalked program self.old reads → HasWalked program self.new ((v, option_copied state.entry) ∷ reads) }
    {
        let Some(v) = self.search.next() else {
            return;
        };
        let last = self.search.is_last();
        let rank = self.rank_of(v);
        let pass = self.search.pass();
        note(&mut self.hops, &pass, v, rank, state);
        self.search.see(state);
        if last {
            mark_targets(&mut self.marks, &mut self.hops);
        }
    }

    fn rank_of(&self, v: Name) -> usize
        ensures { result ≡ ranks (mark_in self.now.marks) v }
    {
        match self.marks.get(&v) {
            None => 0,
            Some(mark) => mark.rank,
        }
    }

    /// The plain answer over the states read: the least walk, if there is one within the bound. The one error is out of
    /// memory.
    pub fn walk(&self, alloc: Global) -> Result<Option<Items<Name>>, AllocError>
        ensures { IfOk result (λ walk. (from to : Name) (bound : ℕ) (pass : Option Filter) (reads : List (Name × State))
            → HasWalked (Path from to bound pass) self.now reads
            → IsPlainAnswer (graph_read reads) (Path from to bound pass) (Walk walk)) }
    {
        let Some(to) = self.search.target() else {
            return Ok(None);
        };
        let Some(bound) = self.search.bound() else {
            return Ok(None);
        };
        if !self.search.is_present(to) {
            return Ok(None);
        }
        Ok(Some(self.walk_to(alloc, to, bound)?))
    }

    fn parent_of(&self, v: Name) -> Name
        ensures { result ≡ parents (mark_in self.now.marks) v }
    {
        match self.marks.get(&v) {
            None => v,
            Some(mark) => mark.parent,
        }
    }

    // The list over parents to a vertex of a level within the bound, from the start.
    fn walk_to(&self, alloc: Global, to: Name, bound: u32) -> Result<Items<Name>, AllocError>
        ensures { IfOk result (λ walk. (graph : PlainGraph) (pass : Passing) (d : ℕ) → d ≤ bound
            → IsRankedTo d graph pass self.now.search.aim.from (mark_in self.now.marks)
            → IsTrue (is_among (levels_to d graph pass self.now.search.aim.from).level to)
            → walk ≡ trace (parents (mark_in self.now.marks)) d to) }
    {
        let mut walk = Vec::new(alloc);
        self.lead_back(&mut walk, to, bound)?;
        walk.reverse();
        Ok(Items::from_vec(walk))
    }

    // Adds the vertex and then each parent, back to the start, over at most that many edges.
    fn lead_back(&self, walk: &mut Vec<Name>, to: Name, bound: u32) -> Result<(), AllocError>
        requires { walk.old.items ≡ [] }
        ensures { OnOk result ((graph : PlainGraph) (pass : Passing) (d : ℕ) → d ≤ bound
            → IsRankedTo d graph pass self.now.search.aim.from (mark_in self.now.marks)
            → IsTrue (is_among (levels_to d graph pass self.now.search.aim.from).level to)
            → reverse walk.new.items ≡ trace (parents (mark_in self.now.marks)) d to) }
    {
        let start = self.search.start();
        let mut v = to;
        walk.push(v)?;
        for _count in 0..bound {
            if v == start {
                return Ok(());
            }
            v = self.parent_of(v);
            walk.push(v)?;
        }
        Ok(())
    }
}

// The start is marked, and nothing else.
fn first_mark(alloc: Global, from: Name) -> Result<HashMap<Name, Mark>, AllocError>
    ensures { IfOk result (λ marks. (v : Name) → is_some (mark_in marks.entries v) ≡ is_among (from ∷ []) v) }
{
    let mut marks = HashMap::new(alloc);
    marks.reserve(1)?;
    let start = Mark {
        parent: from,
        rank: 0,
    };
    let _ = marks.insert(from, start);
    Ok(marks)
}

// Adds the passing edges of a vertex of this rank in this state. There is room for them.
fn note(hops: &mut Vec<Hop>, pass: &Passing, v: Name, rank: usize, state: Option<&Record>)
    requires room { vec_len hops.old + edges_of (option_copied state) ≤ vec_capacity hops.old }
    ensures hops { hops.new.items ≡ hops.old.items ++ hops_from v rank (targets pass.now (option_copied state.entry)) }
    ensures len { vec_len hops.new ≤ vec_len hops.old + edges_of (option_copied state.entry) }
{
    if let Some(found) = state {
        note_all(hops, pass, v, rank, found);
    }
}

// Adds the passing edges of a vertex that is there.
fn note_all(hops: &mut Vec<Hop>, pass: &Passing, v: Name, rank: usize, found: &Record)
    requires room { vec_len hops.old + length found.now.edges ≤ vec_capacity hops.old }
    ensures hops { hops.new.items ≡ hops.old.items ++ hops_from v rank (targets pass.now (Some found.now)) }
    ensures len { vec_len hops.new ≤ vec_len hops.old + length found.now.edges }
{
    for (_name, edge) in found.edges.as_slice() {
        if passes(pass, edge) {
            hops.push_reserved(Hop {
                rank,
                target: edge.target,
                parent: v,
            });
        }
    }
}

// Marks the new targets of the hops, by rank and then by name. There is room for them.
fn mark_targets(marks: &mut HashMap<Name, Mark>, hops: &mut Vec<Hop>)
    requires { vec_len hops.old ≤ spare marks.old }
    ensures { IsMarkedBy marks.old.entries marks.new.entries hops.old.items hops.new.items }
{
    hops.sort_unstable();
    mark_in_turn(marks, hops.as_slice());
    hops.clear();
}

// Marks the new targets of the hops in turn.
fn mark_in_turn(marks: &mut HashMap<Name, Mark>, hops: &[Hop])
    requires { length hops.now ≤ spare marks.old }
    ensures { (v : Name)
        → mark_in marks.new.entries v ≡ marks_after (mark_in marks.old.entries) (length marks.old.entries) hops.now v }
{
    for hop in hops {
        mark_target(marks, hop);
    }
}

// Marks the target of a hop if it is new.
fn mark_target(marks: &mut HashMap<Name, Mark>, hop: &Hop)
    requires { 1 ≤ spare marks.old }
    ensures marks { (v : Name) → mark_in marks.new.entries v
        ≡ (if is_some (mark_in marks.old.entries hop.now.target) then mark_in marks.old.entries v
        else with_mark hop.now.target (record { parent = hop.now.parent; rank = length marks.old.entries })
        (mark_in marks.old.entries) v) }
    ensures count { length marks.new.entries
        ≡ length marks.old.entries + (if is_some (mark_in marks.old.entries hop.now.target) then 0 else 1) }
    ensures spare { spare marks.old ≤ spare marks.new + 1 }
{
    if marks.contains_key(&hop.target) {
        return;
    }
    let mark = Mark {
        parent: hop.parent,
        rank: marks.len(),
    };
    let _ = marks.insert(hop.target, mark);
}
