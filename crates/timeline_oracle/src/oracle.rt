//! The oracle with its log.
ghost use Rattle.std.specs.Prelude.{◌≡◌, []};
ghost use Rattle.vector_stamp.specs.Precedence.{IsAcyclic};
ghost use Rattle.timeline_oracle.specs.Log.{pairs_of_log, IsOracleLog};

use crate::settling::{copy_places, entry_of, first_refused, put_before, room_for};
use order_graph::OrderGraph;
use order_graph::laws::ends_are_of_pairs;
use std::alloc::Global;
use std::marker::Model;
use vector_stamp::laws::settling_puts_all_before;
use vector_stamp::{Judge, Refusal, Settled, Stamp};
use weave_data::Items;
use weave_entries::OracleEntry;
use weave_entries::laws::{an_oracle_log_goes_on, an_oracle_log_has_no_cycle};

/// The pairs that were put, and the entries of the calls that put them. Contracts see the entries.
#[derive(Drop)]
pub struct Oracle {
    graph: OrderGraph,
    log: Vec<OracleEntry>,
}

impl Model for Oracle {
    ghost use Rattle.std.specs.Prelude.{◌≡◌, List};
    ghost use Rattle.weave_entries.specs.declared.oracle_log.OracleEntry.{OracleEntry};
    ghost use Rattle.timeline_oracle.specs.Log.{pairs_of_log, IsOracleLog};

    ghost Value = { List OracleEntry };

    ghost view = { λ o. o.log.items };

    ghost invariant = { λ o. (o.graph.pairs ≡ pairs_of_log o.log.items) × IsOracleLog o.log.items };
}

impl Oracle {
    /// An oracle that has put nothing and knows no stamp. It takes no memory.
    pub fn new(alloc: Global) -> Oracle
        ensures { result ≡ [] }
    {
        Oracle {
            graph: OrderGraph::new(alloc),
            log: Vec::new(alloc),
        }
    }

    /// The entries of the calls that put pairs, in their order.
    pub fn log(&self) -> &[OracleEntry]
        ensures entries { result.now ≡ self.now }
        ensures right { IsOracleLog self.now }
        ensures no_cycle { IsAcyclic (pairs_of_log self.now) }
    {
        an_oracle_log_has_no_cycle();
        self.log.as_slice()
    }
}

/// A call asks the graph at most twice for each earlier event, which takes no memory. It takes the memory for all that
/// it may add before it adds anything.
impl Judge for Oracle {
    ghost use Rattle.std.specs.Prelude.{map, true};
    ghost use Rattle.order_graph.specs.Building.{ends_of};
    ghost use Rattle.timeline_oracle.specs.Ends.{ends_joined};
    ghost use Rattle.timeline_oracle.specs.Log.{pairs_of_log, settled_entry};

    ghost pairs = { λ oracle. pairs_of_log oracle };

    ghost known = { λ oracle. ends_of (pairs_of_log oracle) };

    ghost keeps_log = { true };

    ghost log_of = { λ oracle. map settled_entry oracle };

    ghost pairs_known = { λ oracle. ends_joined (pairs_of_log oracle) };

    fn settle(
        &mut self,
        alloc: Global,
        author: u32,
        earlier: &[Stamp],
        later: Stamp,
        keep: bool,
    ) -> Result<Settled, Refusal> {
        settling_puts_all_before();
        ends_are_of_pairs();
        an_oracle_log_goes_on();
        if let Some(place) = first_refused(&self.graph, earlier, &later) {
            return Err(Refusal::Precedes { place });
        }
        if !keep {
            return Ok(Settled {
                places: Items::new(alloc),
            });
        }
        // All memory is taken before the first pair is added: so nothing has changed if there is too little.
        let mut places = room_for(alloc, earlier.len())?;
        let mut logged = room_for(alloc, earlier.len())?;
        let handed = Vec::from_slice(alloc, earlier)?;
        self.log.reserve(1)?;
        self.graph.reserve(earlier.len())?;
        put_before(&mut self.graph, earlier, later, &mut places);
        if places.is_empty() {
            return Ok(Settled {
                places: Items::from_vec(places),
            });
        }
        copy_places(places.as_slice(), &mut logged);
        self.log
            .push_reserved(entry_of(author, handed, later, logged));
        Ok(Settled {
            places: Items::from_vec(places),
        })
    }
}
