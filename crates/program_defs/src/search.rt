//! The search of a program, level by level.
ghost use Rattle.std.specs.Prelude.{nat_le, ◌≡◌, ◌≤◌, ◌+◌, ◌++◌, ◌∷◌, ◌||◌, [], true, List, Option, Some, None, length, is_some, IfOk, OnOk, IfSome, option_copied, if◌then◌else◌};
ghost use Rattle.weave_data.specs.declared.name.Name.{Name};
ghost use Rattle.graph_ops.specs.Mentions.{is_among};
ghost use Rattle.graph_ops.specs.Operations.{State};
ghost use Rattle.program_defs.specs.declared.program.Program.{Program};
ghost use Rattle.program_defs.specs.Searching.{aim_of, next_of, has_name, new_names, edges_of, AddsState, gone_on, turned_search, onto_next_level, SameReached, IsOnce, HasSearched, IsGoing, SeesVertex};
ghost use Rattle.program_defs.specs.Visits.{as_set};
ghost use Rattle.program_defs.specs.Walks.{is_value};

use crate::aim::Aim;
use crate::passing::Passing;
use crate::targets::look;
use graph_ops::Record;
use std::alloc::{AllocError, Global};
use std::collections::HashSet;
use std::marker::Model;
use std::mem::swap;
use weave_data::{Items, Name};

/// A search level by level, fed with the states of the vertices that it asks for.
#[derive(Drop)]
pub struct Search {
    aim: Aim,
    left: Option<u32>,
    level: Vec<Name>,
    at: usize,
    found: Vec<Name>,
    reached: HashSet<Name>,
    present: Vec<Name>,
    over: bool,
}

impl Model for Search {
    ghost use Rattle.std.specs.Prelude.{◌-◌, min, drop, vec_len, vec_capacity};
    ghost use Rattle.std.specs.HashSet.{spare};
    ghost use Rattle.program_defs.specs.Searching.{SearchState};

    ghost Value = { SearchState };

    ghost view = { λ s. record {
      aim = s.aim;
      left = s.left;
      rest = drop s.at s.level.items;
      found = s.found.items;
      reached = s.reached.keys;
      present = s.present.items;
      over = s.over;
      room = min (spare s.reached)
          (min (vec_capacity s.found - vec_len s.found) (vec_capacity s.present - vec_len s.present));
    } };
}

impl Search {
    /// The search before its first read.
    pub fn new(alloc: Global, aim: Aim) -> Result<Search, AllocError>
        ensures aim { IfOk result (λ search. search.aim ≡ aim) }
        ensures going { IfOk result (λ search. IsGoing search [] 0 []) }
        ensures present { IfOk result (λ search. search.present ≡ []) }
        ensures reads { IfOk result (λ search. (program : Program) → aim_of program ≡ Some aim
            → HasSearched program search []) }
    {
        let mut level = Vec::new(alloc);
        level.push(aim.from)?;
        let mut reached = HashSet::new(alloc);
        reached.insert(aim.from)?;
        Ok(Search {
            aim,
            left: aim.bound,
            level,
            at: 0,
            found: Vec::new(alloc),
            reached,
            present: Vec::new(alloc),
            over: false,
        })
    }

    /// The vertex to be read next.
    pub fn next(&self) -> Option<Name>
        ensures { result ≡ next_of self.now }
    {
        if self.over {
            return None;
        }
        self.level.get(self.at).copied()
    }

    /// Where the walks start.
    pub fn start(&self) -> Name
        ensures { result ≡ self.now.aim.from }
    {
        self.aim.from
    }

    /// The vertex that ends the search.
    pub fn target(&self) -> Option<Name>
        ensures { result ≡ self.now.aim.target }
    {
        self.aim.target
    }

    /// The most edges of a walk.
    pub fn bound(&self) -> Option<u32>
        ensures { result ≡ self.now.aim.bound }
    {
        self.aim.bound
    }

    /// Which edges pass.
    pub fn pass(&self) -> Passing
        ensures { result ≡ self.now.aim.pass }
    {
        self.aim.pass
    }

    /// Whether no more than one vertex of the level is left.
    pub fn is_last(&self) -> bool
        ensures { result ≡ nat_le (length self.now.rest) 1 }
    {
        self.level.len().saturating_sub(self.at) <= 1
    }

    /// Takes room for that many names: a read needs one more than the vertex has edges. Nothing else changes.
    pub fn reserve(&mut self, names: usize) -> Result<(), AllocError>
        ensures room { OnOk result (names ≤ self.new.room) }
        ensures less { self.old.room ≤ self.new.room }
        ensures same { SameReached self.old self.new }
    {
        self.reached.reserve(names)?;
        self.found.reserve(names)?;
        self.present.reserve(names)?;
        Ok(())
    }

    /// Reads the next vertex in this state. It takes no memory.
    pub fn see(&mut self, state: Option<&Record>)
        requires room { edges_of (option_copied state) + 1 ≤ self.old.room }
        ensures aim { self.new.aim ≡ self.old.aim }
        ensures onward { (v : Name) → next_of self.old ≡ Some v
            → SeesVertex v (option_copied state.entry) self.old self.new }
        ensures reads { (program : Program) (v : Name) (reads : List (Name × State)) → next_of self.old ≡ Some v
            → HasSearched program self.old reads
            → HasSearched program self.new ((v, option_copied state.entry) ∷ reads) }
    {
        let Some(v) = self.next() else {
            return;
        };
        self.add(v, state);
        self.go_on(v);
    }

    /// Whether the vertex was read and is there.
    pub fn is_present(&self, v: Name) -> bool
        ensures { result ≡ is_among self.now.present v }
    {
        self.present.iter().any(|other| *other == v)
    }

    /// The vertices that were read and are there, in byte order. The one error is out of memory.
    pub fn present(&self) -> Result<Items<Name>, AllocError>
        ensures { IfOk result (λ vertices. IsOnce self.now.present → vertices ≡ as_set self.now.present) }
    {
        let mut vertices = self.present.clone()?;
        vertices.sort_unstable();
        Ok(Items::from_vec(vertices))
    }

    // Adds what the state of the next vertex has.
    fn add(&mut self, v: Name, state: Option<&Record>)
        requires room { edges_of (option_copied state) + 1 ≤ self.old.room }
        requires next { next_of self.old ≡ Some v }
        ensures { AddsState v (option_copied state.entry) self.old self.new }
    {
        self.at += 1;
        if let Some(found) = state {
            self.present.push_reserved(v);
            look(&mut self.found, &mut self.reached, &self.aim.pass, found);
        }
    }

    // Ends with the target; goes to the next level after the last vertex of this one.
    fn go_on(&mut self, v: Name)
        ensures aim { self.new.aim ≡ self.old.aim }
        ensures onward { IsOnce self.old.found → self.new ≡ record (gone_on v self.old) { room = self.new.room } }
    {
        if self.is_target(v) {
            self.over = true;
        } else if self.level.len() <= self.at {
            self.turn();
        }
    }

    fn is_target(&self, v: Name) -> bool
        ensures { result ≡ is_value self.now.aim.target v }
    {
        match self.aim.target {
            None => false,
            Some(target) => target == v,
        }
    }

    // Goes to the next level, within the bound.
    fn turn(&mut self)
        ensures aim { self.new.aim ≡ self.old.aim }
        ensures next_level { IsOnce self.old.found
            → self.new ≡ record (turned_search self.old.left self.old) { room = self.new.room } }
    {
        match self.left {
            None => self.go_down(),
            Some(0) => self.over = true,
            Some(left) => {
                self.left = Some(left - 1);
                self.go_down();
            }
        }
    }

    // The names found are the next level.
    fn go_down(&mut self)
        ensures aim { self.new.aim ≡ self.old.aim }
        ensures level { IsOnce self.old.found
            → self.new ≡ record (onto_next_level self.old.left self.old) { room = self.new.room } }
    {
        swap(&mut self.level, &mut self.found);
        self.found.clear();
        self.level.sort_unstable();
        self.at = 0;
        self.over = self.level.is_empty();
    }
}
