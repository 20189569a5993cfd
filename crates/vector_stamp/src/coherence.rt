//! The test of coherence: whether stamps can be those that gatekeepers gave to events.
ghost use Rattle.std.specs.Prelude.{◌≡◌, ◌<◌, ◌↔◌, IsTrue};
ghost use Rattle.std.specs.List.{list_all};
ghost use Rattle.weave_data.specs.Limits.{most_gates};
ghost use Rattle.vector_stamp.specs.Order.{same_id};
ghost use Rattle.vector_stamp.specs.Coherence.{AreCoherent, all_coherent, two_coherent};

use crate::clock::Stamp;
use crate::laws::coherence_is_decided;
use weave_data::MOST_GATES;

/// Whether the stamps are coherent: each home is below 8, those of one id are equal, and two different ones of one home
/// are ordered as their epochs, then their own counts. It compares each two of them.
pub fn are_coherent(stamps: &[Stamp]) -> bool
    ensures { IsTrue result ↔ AreCoherent stamps.now }
{
    coherence_is_decided();
    is_each_coherent(stamps)
}

fn is_each_coherent(stamps: &[Stamp]) -> bool
    ensures { result ≡ all_coherent stamps.now }
{
    stamps
        .iter()
        .all(|stamp| is_coherent_with_all(stamp, stamps))
}

fn is_coherent_with_all(stamp: &Stamp, others: &[Stamp]) -> bool
    ensures { result ≡ list_all (two_coherent stamp.now) others.now }
{
    others.iter().all(|other| are_two_coherent(stamp, other))
}

fn are_two_coherent(a: &Stamp, b: &Stamp) -> bool
    ensures { result ≡ two_coherent a.now b.now }
{
    a.home < MOST_GATES
        && (!is_same_id(a, b) || a == b)
        && (!(a.home == b.home && a.has_lesser_id(b)) || a.is_before(b))
}

fn is_same_id(a: &Stamp, b: &Stamp) -> bool
    requires { a.now.home < most_gates }
    ensures { result ≡ same_id a.now b.now }
{
    a.home == b.home && a.id() == b.id()
}
