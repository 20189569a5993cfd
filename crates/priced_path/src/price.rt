//! The program `price`.
ghost use Rattle.std.specs.Prelude.{◌≡◌, [], Some, IfOk};
ghost use Rattle.program_defs.specs.declared.program.Program.TheVariants.{Price};
ghost use Rattle.program_defs.specs.Searching.{next_of};
ghost use Rattle.priced_path.specs.Price.{price_asked, HasPriced, price_reads_left};

use crate::answer::answer_of;
use crate::kept_edge::{KeptEdge, keep};
use graph_ops::{MOST_EDGES, Record};
use node_program::NodeProgram;
use program_defs::laws::{searches_are_right, searches_find_the_present};
use program_defs::{Aim, Answer, Search};
use std::alloc::{AllocError, Global};
use std::marker::Model;
use weave_data::Name;

/// The program `price`. It keeps the passing edges of what it reads, and looks for least prices when it is asked for
/// its outcome.
#[derive(Drop)]
pub struct PricedProgram {
    to: Name,
    key: Name,
    // It lies apart, since it is large and a program may be kept in a table.
    search: Box<Search>,
    edges: Vec<KeptEdge>,
}

impl Model for PricedProgram {
    ghost use Rattle.std.specs.Prelude.{◌-◌, vec_len, vec_capacity};
    ghost use Rattle.priced_path.specs.Price.{PriceState, IsPricing};

    ghost Value = { PriceState };

    ghost view = { λ s. record {
      to = s.to;
      key = s.key;
      search = s.search.value;
      edges = s.edges.items;
      room = vec_capacity s.edges - vec_len s.edges;
    } };

    ghost invariant = { λ s. IsPricing s.to s.key s.search.value s.edges.items };
}

impl PricedProgram {
    /// `price`, before its first read. The one error is out of memory.
    pub fn new(alloc: Global, from: Name, to: Name, key: Name) -> Result<PricedProgram, AllocError>
        ensures program { IfOk result (λ walk. ⟦<PricedProgram as NodeProgram>⟧.program walk ≡ Price from to key) }
        ensures reads { IfOk result (λ walk. ⟦<PricedProgram as NodeProgram>⟧.has_read walk []) }
    {
        let search = Search::new(alloc, Aim::price(from, key))?;
        Ok(PricedProgram {
            to,
            key,
            search: Box::new(alloc, search)?,
            edges: Vec::new(alloc),
        })
    }
}

impl NodeProgram for PricedProgram {
    ghost program = { λ walk. price_asked walk.to walk.key walk.search };

    ghost has_read = { λ walk reads. HasPriced walk.to walk.key walk.search walk.edges reads };

    ghost next = { λ walk. next_of walk.search };

    ghost spare = { λ walk. price_reads_left walk.search walk.room };

    fn next_vertex(&self) -> Option<Name> {
        searches_are_right();
        self.search.next()
    }

    fn ready(&mut self) -> Result<(), AllocError> {
        searches_are_right();
        self.search.reserve(MOST_EDGES + 1)?;
        self.edges.reserve(MOST_EDGES)?;
        Ok(())
    }

    fn see(&mut self, state: Option<Record>) {
        searches_are_right();
        let Some(v) = self.search.next() else {
            return;
        };
        keep(&mut self.edges, v, self.key, state.as_ref());
        self.search.see(state.as_ref());
    }

    fn outcome(&self, alloc: Global) -> Result<Answer, AllocError> {
        searches_find_the_present();
        let vertices = self.search.present()?;
        let from = self.search.start();
        answer_of(
            alloc,
            vertices.as_slice(),
            self.edges.as_slice(),
            from,
            self.to,
        )
    }
}
