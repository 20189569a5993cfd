//! The program `path`.
ghost use Rattle.std.specs.Prelude.{◌≡◌, ◌≤◌, [], Some, IfOk};
ghost use Rattle.program_defs.specs.declared.program.Program.TheVariants.{Path};
ghost use Rattle.path_program.specs.Path.{path_asked, HasPathed, path_reads_left, next_pathed};

use graph_ops::{MOST_EDGES, Record};
use node_program::NodeProgram;
use program_defs::laws::path_searches_are_right;
use program_defs::{Aim, Answer, Filter, Passing, PathSearch};
use std::alloc::{AllocError, Global};
use weave_data::Name;

/// The program `path`.
#[derive(Drop)]
pub struct PathProgram {
    pub to: Name,
    pub bound: u32,
    /// It lies apart, since it is large and a program may be kept in a table.
    pub search: Box<PathSearch>,
}

impl PathProgram {
    /// `path`, before its first read. The one error is out of memory.
    pub fn new(
        alloc: Global,
        from: Name,
        to: Name,
        bound: u32,
        pass: Option<Filter>,
    ) -> Result<PathProgram, AllocError>
        ensures program { IfOk result (λ walk. ⟦<PathProgram as NodeProgram>⟧.program walk ≡ Path from to bound pass) }
        ensures reads { IfOk result (λ walk. ⟦<PathProgram as NodeProgram>⟧.has_read walk []) }
    {
        let aim = Aim {
            from,
            target: Some(to),
            bound: Some(bound),
            pass: Passing::of(pass),
        };
        let search = PathSearch::new(alloc, aim)?;
        Ok(PathProgram {
            to,
            bound,
            search: Box::new(alloc, search)?,
        })
    }
}

impl NodeProgram for PathProgram {
    ghost program = { λ walk. path_asked walk.to walk.bound walk.search.value };

    ghost has_read = { λ walk reads. HasPathed walk.to walk.bound walk.search.value reads };

    ghost next = { λ walk. next_pathed walk.search.value };

    ghost spare = { λ walk. path_reads_left walk.search.value };

    fn next_vertex(&self) -> Option<Name> {
        path_searches_are_right();
        self.search.next()
    }

    fn ready(&mut self) -> Result<(), AllocError> {
        path_searches_are_right();
        self.search.reserve(MOST_EDGES + 1)
    }

    fn see(&mut self, state: Option<Record>) {
        self.search.see(state.as_ref());
    }

    fn outcome(&self, alloc: Global) -> Result<Answer, AllocError> {
        Ok(Answer::Walk(self.search.walk(alloc)?))
    }
}
