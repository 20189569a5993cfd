//! The programs `reach` and `around`.
ghost use Rattle.std.specs.Prelude.{◌≡◌, ◌≤◌, [], Some, IfOk};
ghost use Rattle.program_defs.specs.declared.program.Program.TheVariants.{Reach, Around};
ghost use Rattle.reach_program.specs.Reach.{program_asked, HasReached, reach_reads_left, next_reached};

use graph_ops::{MOST_EDGES, Record};
use node_program::NodeProgram;
use program_defs::laws::searches_are_right;
use program_defs::{Aim, Answer, Filter, Passing, Search};
use std::alloc::{AllocError, Global};
use weave_data::Name;

/// What the program asks of the vertices that walks lead to.
#[derive(Clone, Copy)]
pub enum Goal {
    /// Whether this one is among them.
    To(Name),
    /// Which they are, within this many edges.
    Within(u32),
}

/// The programs `reach` and `around`.
#[derive(Drop)]
pub struct ReachProgram {
    pub goal: Goal,
    /// It lies apart, since it is large and a program may be kept in a table.
    pub search: Box<Search>,
}

impl ReachProgram {
    /// `reach`, before its first read. The one error is out of memory.
    pub fn new(
        alloc: Global,
        from: Name,
        to: Name,
        pass: Option<Filter>,
    ) -> Result<ReachProgram, AllocError>
        ensures program { IfOk result (λ walk. ⟦<ReachProgram as NodeProgram>⟧.program walk ≡ Reach from to pass) }
        ensures reads { IfOk result (λ walk. ⟦<ReachProgram as NodeProgram>⟧.has_read walk []) }
    {
        let aim = Aim {
            from,
            target: Some(to),
            bound: None,
            pass: Passing::of(pass),
        };
        let search = Search::new(alloc, aim)?;
        Ok(ReachProgram {
            goal: Goal::To(to),
            search: Box::new(alloc, search)?,
        })
    }

    /// `around`, before its first read. The one error is out of memory.
    pub fn around(
        alloc: Global,
        from: Name,
        bound: u32,
        pass: Option<Filter>,
    ) -> Result<ReachProgram, AllocError>
        ensures program { IfOk result (λ walk. ⟦<ReachProgram as NodeProgram>⟧.program walk ≡ Around from bound pass) }
        ensures reads { IfOk result (λ walk. ⟦<ReachProgram as NodeProgram>⟧.has_read walk []) }
    {
        let aim = Aim {
            from,
            target: None,
            bound: Some(bound),
            pass: Passing::of(pass),
        };
        let search = Search::new(alloc, aim)?;
        Ok(ReachProgram {
            goal: Goal::Within(bound),
            search: Box::new(alloc, search)?,
        })
    }
}

impl NodeProgram for ReachProgram {
    ghost program = { λ walk. program_asked walk.goal walk.search.value.aim };

    ghost has_read = { λ walk reads. HasReached walk.goal walk.search.value reads };

    ghost next = { λ walk. next_reached walk.search.value };

    ghost spare = { λ walk. reach_reads_left walk.search.value };

    fn next_vertex(&self) -> Option<Name> {
        searches_are_right();
        self.search.next()
    }

    fn ready(&mut self) -> Result<(), AllocError> {
        searches_are_right();
        self.search.reserve(MOST_EDGES + 1)
    }

    fn see(&mut self, state: Option<Record>) {
        self.search.see(state.as_ref());
    }

    fn outcome(&self, _alloc: Global) -> Result<Answer, AllocError> {
        searches_are_right();
        match self.goal {
            Goal::To(to) => Ok(Answer::Reached(self.search.is_present(to))),
            Goal::Within(_) => Ok(Answer::Found(self.search.present()?)),
        }
    }
}
