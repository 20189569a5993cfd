//! Any of the node programs.
ghost use Rattle.std.specs.Prelude.{◌≡◌, [], IfOk};
ghost use Rattle.path_program.specs.AnyPrograms.{any_of, HasRead, next_read, reads_left};

use crate::path::PathProgram;
use graph_ops::Record;
use node_program::{NodeProgram, ShowProgram};
use priced_path::PricedProgram;
use program_defs::{Answer, Program};
use reach_program::ReachProgram;
use std::alloc::{AllocError, Global};
use weave_data::Name;

/// Any of the node programs, under way.
#[derive(Drop)]
pub enum AnyProgram {
    Show(ShowProgram),
    /// `reach` and `around`.
    Reach(ReachProgram),
    Path(PathProgram),
    Price(PricedProgram),
}

impl AnyProgram {
    /// The program, before its first read. The one error is out of memory.
    pub fn new(alloc: Global, program: &Program) -> Result<AnyProgram, AllocError>
        ensures program { IfOk result (λ walk. ⟦<AnyProgram as NodeProgram>⟧.program walk ≡ program.now) }
        ensures reads { IfOk result (λ walk. ⟦<AnyProgram as NodeProgram>⟧.has_read walk []) }
    {
        match *program {
            Program::Show { v } => Ok(AnyProgram::Show(ShowProgram::new(v))),
            Program::Reach { from, to, pass } => {
                let walk = ReachProgram::new(alloc, from, to, pass)?;
                Ok(AnyProgram::Reach(walk))
            }
            Program::Around { from, bound, pass } => {
                let walk = ReachProgram::around(alloc, from, bound, pass)?;
                Ok(AnyProgram::Reach(walk))
            }
            Program::Path {
                from,
                to,
                bound,
                pass,
            } => {
                let walk = PathProgram::new(alloc, from, to, bound, pass)?;
                Ok(AnyProgram::Path(walk))
            }
            Program::Price { from, to, key } => {
                let walk = PricedProgram::new(alloc, from, to, key)?;
                Ok(AnyProgram::Price(walk))
            }
        }
    }
}

impl NodeProgram for AnyProgram {
    ghost program = { any_of };

    ghost has_read = { HasRead };

    ghost next = { next_read };

    ghost spare = { reads_left };

    fn next_vertex(&self) -> Option<Name> {
        match self {
            AnyProgram::Show(walk) => walk.next_vertex(),
            AnyProgram::Reach(walk) => walk.next_vertex(),
            AnyProgram::Path(walk) => walk.next_vertex(),
            AnyProgram::Price(walk) => walk.next_vertex(),
        }
    }

    fn ready(&mut self) -> Result<(), AllocError> {
        match self {
            AnyProgram::Show(walk) => walk.ready(),
            AnyProgram::Reach(walk) => walk.ready(),
            AnyProgram::Path(walk) => walk.ready(),
            AnyProgram::Price(walk) => walk.ready(),
        }
    }

    fn see(&mut self, state: Option<Record>) {
        match self {
            AnyProgram::Show(walk) => walk.see(state),
            AnyProgram::Reach(walk) => walk.see(state),
            AnyProgram::Path(walk) => walk.see(state),
            AnyProgram::Price(walk) => walk.see(state),
        }
    }

    fn outcome(&self, alloc: Global) -> Result<Answer, AllocError> {
        match self {
            AnyProgram::Show(walk) => walk.outcome(alloc),
            AnyProgram::Reach(walk) => walk.outcome(alloc),
            AnyProgram::Path(walk) => walk.outcome(alloc),
            AnyProgram::Price(walk) => walk.outcome(alloc),
        }
    }
}
