//! Events that are in no order by their stamps, for long chains of pairs.
ghost use Rattle.std.specs.Prelude.{◌<◌};
ghost use Rattle.weave_data.specs.Limits.{most_gates};

use crate::values::stamp_in;
use std::alloc::Global;
use std::process::Abort;
use vector_stamp::Stamp;

// The home of an event: the first and the last one are alone at their gatekeepers, and those between take turns at the
// six others.
fn home_of(place: usize, last: usize) -> usize
    ensures { result < most_gates }
{
    if place == 0 {
        return 0;
    }
    if place == last {
        return 7;
    }
    (place - 1) % 6 + 1
}

/// That many events of eight gatekeepers that hear no other. Neighbours are unordered, and so are the first and the
/// last.
pub fn events_in_turn(rt: &impl Abort, alloc: Global, number: usize) -> Vec<Stamp>
    requires { 0 < number }
{
    let mut events = Vec::new(alloc);
    for place in 0..number {
        let home = home_of(place, number - 1);
        let mut counts = [0; 8];
        counts[home] = place as u64 / 6 + 1;
        events
            .push(stamp_in(0, home as u32, counts))
            .expect(rt, "memory");
    }
    events
}
