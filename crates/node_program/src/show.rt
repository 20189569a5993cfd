//! The program `show`.
ghost use Rattle.std.specs.Prelude.{◌≡◌, [], IfOk};
ghost use Rattle.program_defs.specs.declared.program.Program.TheVariants.{Show};
ghost use Rattle.node_program.specs.Show.{HasShown, next_shown};

use crate::node::NodeProgram;
use graph_ops::Record;
use program_defs::Answer;
use std::alloc::{AllocError, Global};
use weave_data::{Copied, Name};

/// The program `show`: it reads its vertex and answers its state.
#[derive(Drop)]
pub struct ShowProgram {
    pub v: Name,
    /// What it has read, if it has read its vertex.
    pub read: Option<Option<Record>>,
}

impl ShowProgram {
    /// `show` of this vertex, before its read. It takes no memory.
    pub fn new(v: Name) -> ShowProgram
        ensures program { ⟦<ShowProgram as NodeProgram>⟧.program result ≡ Show v }
        ensures reads { ⟦<ShowProgram as NodeProgram>⟧.has_read result [] }
    {
        ShowProgram { v, read: None }
    }
}

impl NodeProgram for ShowProgram {
    ghost program = { λ walk. Show walk.v };

    ghost has_read = { λ walk reads. HasShown walk.v walk.read reads };

    ghost next = { λ walk. next_shown walk.v walk.read };

    ghost spare = { λ walk. 1 };

    fn next_vertex(&self) -> Option<Name> {
        match self.read {
            None => Some(self.v),
            Some(_) => None,
        }
    }

    fn ready(&mut self) -> Result<(), AllocError> {
        Ok(())
    }

    fn see(&mut self, state: Option<Record>) {
        self.read = Some(state);
    }

    fn outcome(&self, alloc: Global) -> Result<Answer, AllocError> {
        match &self.read {
            None => Ok(Answer::Shown(None)),
            Some(state) => Ok(Answer::Shown(state.copy(alloc)?)),
        }
    }
}
