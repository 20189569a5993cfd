//! The transaction in flight, and how the clock goes on when a request begins or a clock is heard.
ghost use Rattle.std.specs.Prelude.{◌≡◌, ◌<◌, IsTrue};
ghost use Rattle.std.specs.Option.{ForSome};
ghost use Rattle.weave_data.specs.Limits.{most_gates};
ghost use Rattle.vector_stamp.specs.Order.{count_of, HasEightCounts, has_64_bits};
ghost use Rattle.vector_stamp.specs.Clocks.{clock_after_hearing};
ghost use Rattle.weave_entries.specs.GateReplay.{begun_stamp};

use vector_stamp::{Clock, Stamp};

/// A transaction in flight: who began which request, and its stamp.
#[derive(Clone, Copy)]
pub struct Flight {
    pub author: u32,
    pub request: u32,
    pub stamp: Stamp,
}

/// The stamp of a request: what its session began last is heard before the own count rises.
pub fn begin(clock: &mut Clock, home: u32, last: Option<Stamp>) -> Stamp
    requires home { home < most_gates }
    requires room { count_of home clock.old < u64.MAX }
    ensures stamp { result ≡ begun_stamp home clock.old last }
    ensures clock { clock.new ≡ result.clock }
    ensures eight { ForSome last (λ heard. HasEightCounts heard.clock) }
    ensures bits { IsTrue (has_64_bits result.clock) }
{
    if let Some(heard) = last {
        clock.hear(home, &heard.clock);
    }
    let stamp = clock.tick(home);
    stamp.clock.shows_64_bits();
    stamp
}

/// Takes in a clock that the gatekeeper at home hears.
pub fn hear(clock: &mut Clock, home: u32, heard: Clock)
    requires { home < most_gates }
    ensures clock { clock.new ≡ clock_after_hearing home clock.old heard }
    ensures eight { HasEightCounts heard }
{
    clock.hear(home, &heard);
}
