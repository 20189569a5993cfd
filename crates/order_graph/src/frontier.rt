//! For an event, of each gatekeeper an event that precedes it.
ghost use Rattle.std.specs.Prelude.{◌≡◌, ◌<◌, Some, length, slice_set};
ghost use Rattle.weave_data.specs.Limits.{most_gates};
ghost use Rattle.order_graph.specs.Frontiers.{StampOrderLaws, at_or_before, later_of, empty_frontier, joined_frontiers, is_up_to_event, is_up_to_frontier};

use vector_stamp::laws::{equality_is_decided, stamps_are_ordered};
use vector_stamp::{COUNTS, Stamp};

// What proofs take as a premise.
pub(crate) fn stamps_keep_the_laws()
    ensures { StampOrderLaws }
{
    stamps_are_ordered();
    equality_is_decided();
}

/// For each of eight gatekeepers one of its events, or none.
#[derive(Clone, Copy)]
pub(crate) struct Frontier {
    pub(crate) latest: [Option<Stamp>; COUNTS],
}

impl Frontier {
    /// No event of any gatekeeper.
    pub(crate) fn empty() -> Frontier
        ensures { result.latest ≡ empty_frontier }
    {
        Frontier {
            latest: [None; COUNTS],
        }
    }

    /// This event alone.
    pub(crate) fn of(stamp: &Stamp) -> Frontier
        requires { stamp.now.home < most_gates }
        ensures { result.latest ≡ slice_set empty_frontier stamp.now.home (Some stamp.now) }
    {
        let mut frontier = Frontier::empty();
        frontier.latest[stamp.home as usize] = Some(*stamp);
        frontier
    }

    /// Whether the stamp is, or is before, one of the events.
    pub(crate) fn covers(&self, stamp: &Stamp) -> bool
        ensures { result ≡ is_up_to_frontier self.now.latest stamp.now }
    {
        self.latest.iter().any(|latest| reaches(stamp, latest))
    }

    /// Takes the later of the two events of each gatekeeper.
    pub(crate) fn join(&mut self, other: &Frontier)
        ensures { self.new.latest ≡ joined_frontiers self.old.latest other.now.latest }
    {
        for gate in 0..8 {
            self.latest[gate] = later_of(self.latest[gate], other.latest[gate]);
        }
    }
}

fn later_of(a: Option<Stamp>, b: Option<Stamp>) -> Option<Stamp>
    ensures { result ≡ later_of a b }
{
    match (a, b) {
        (a, None) => a,
        (None, Some(b)) => Some(b),
        (Some(a), Some(b)) => { if a.is_before(&b) { Some(b) } else { Some(a) } }
    }
}

fn reaches(stamp: &Stamp, latest: &Option<Stamp>) -> bool
    ensures { result ≡ is_up_to_event stamp.now latest.now }
{
    match latest {
        Some(latest) => is_at_or_before(stamp, latest),
        None => false,
    }
}

/// Whether the stamps are equal, or the first is before the second.
pub(crate) fn is_at_or_before(a: &Stamp, b: &Stamp) -> bool
    ensures { result ≡ at_or_before a.now b.now }
{
    a == b || a.is_before(b)
}
