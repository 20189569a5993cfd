ghost use Rattle.std.specs.Prelude.{◌≡◌, [], ◌∷◌};

use std::alloc::Global;
use std::process::Abort;
use vector_stamp::{Clock, EventId, Relation, Settled, Stamp, are_coherent};
use weave_data::{Copied, Items};

fn clock(epoch: u64, first: u64, second: u64) -> Clock
    ensures { result ≡ record { epoch = epoch; counts = first ∷ second ∷ 0 ∷ 0 ∷ 0 ∷ 0 ∷ 0 ∷ 0 ∷ [] } }
{
    Clock {
        epoch,
        counts: [first, second, 0, 0, 0, 0, 0, 0],
    }
}

#[test]
fn each_relation(rt: HostRuntime) {
    let cases = [
        (clock(0, 1, 0), clock(0, 1, 1), Relation::Before, true),
        (clock(0, 1, 1), clock(0, 0, 1), Relation::After, false),
        (clock(0, 1, 0), clock(0, 0, 1), Relation::Unordered, false),
        (clock(0, 1, 1), clock(0, 1, 1), Relation::Unordered, true),
        (clock(0, 5, 7), clock(1, 0, 0), Relation::Before, true),
        (clock(2, 0, 0), clock(1, 5, 7), Relation::After, false),
    ];
    for (one, other, relation, at_most) in cases.iter() {
        assert!(rt; one.compare(other) == *relation && one.at_most(other) == *at_most);
    }
}

#[test]
fn ticks_of_two_gatekeepers(rt: HostRuntime) {
    let mut clock_of_0 = Clock::start();
    let mut clock_of_1 = Clock::start();
    let first = clock_of_0.tick(0);
    let other = clock_of_1.tick(1);
    let second = clock_of_0.tick(0);
    assert!(rt; first == stamp(0, clock(0, 1, 0)) && other == stamp(1, clock(0, 0, 1)));
    assert!(rt; second == stamp(0, clock(0, 2, 0)) && clock_of_0 == second.clock);
    assert!(rt;
        second.id()
            == EventId {
                home: 0,
                epoch: 0,
                count: 2
            }
    );
}

// Each clock is that of the gatekeeper of home 0 before it hears, and after.
#[test]
fn hears(rt: HostRuntime) {
    let cases = [
        ("own epoch", clock(0, 2, 0), clock(0, 0, 5), clock(0, 2, 5)),
        (
            "less of its own count",
            clock(0, 2, 5),
            clock(0, 1, 3),
            clock(0, 2, 5),
        ),
        (
            "more of its own count",
            clock(0, 2, 5),
            clock(0, 9, 3),
            clock(0, 2, 5),
        ),
        (
            "lower epoch",
            clock(2, 0, 0),
            clock(1, 0, 9),
            clock(2, 0, 0),
        ),
        (
            "higher epoch",
            clock(2, 7, 1),
            clock(3, 0, 4),
            clock(3, 0, 4),
        ),
        (
            "own count in a higher epoch",
            clock(2, 7, 1),
            clock(3, 6, 4),
            clock(3, 0, 4),
        ),
    ];
    for (case, before, heard, after) in cases.iter() {
        let mut own = *before;
        own.hear(0, heard);
        assert!(rt; own == *after, "{case}");
    }
}

#[test]
fn hears_and_ticks(rt: HostRuntime) {
    let mut own = clock(0, 0, 0);
    let heard = clock(0, 0, 5);
    own.hear(0, &heard);
    let stamp = own.tick(0);
    assert!(rt;
        stamp
            == Stamp {
                home: 0,
                clock: clock(0, 1, 5)
            }
    );
    assert!(rt; heard.compare(&stamp.clock) == Relation::Before);
}

#[test]
fn raises_and_meets(rt: HostRuntime) {
    let mut raised = clock(0, 3, 5);
    raised.raise(2);
    assert!(rt; raised == clock(2, 0, 0));
    let cases = [
        (clock(0, 3, 5), clock(0, 4, 1), clock(0, 3, 1)),
        (clock(1, 3, 5), clock(2, 0, 0), clock(1, 3, 5)),
        (clock(2, 0, 0), clock(1, 3, 5), clock(1, 3, 5)),
    ];
    for (one, other, meet) in cases.iter() {
        assert!(rt; one.meet(other) == *meet);
    }
}

// Whether an answer with these places is copied.
fn is_copied(rt: &impl Abort, alloc: Global, places: &[u32]) -> bool {
    let answer = Settled {
        places: Items::from_vec(Vec::from_slice(alloc, places).expect(rt, "memory")),
    };
    let copied = answer.copy(alloc).expect(rt, "memory");
    copied.places.as_slice() == places
}

// An answer without places, with one and with several.
#[test]
fn copies(rt: HostRuntime) {
    let alloc = rt.alloc();
    let rows: [&[u32]; 4] = [&[], &[0], &[1, 4], &[0, 1, 2, 7, u32::MAX]];
    for places in rows {
        assert!(rt; is_copied(&rt, alloc, places));
    }
}

fn stamp(home: u32, clock: Clock) -> Stamp
    ensures { result ≡ record { home = home; clock = clock } }
{
    Stamp { home, clock }
}

// Each two stamps, whether the first is before the second, whether they are unordered, and whether they can be of two
// events.
#[test]
fn compares_stamps(rt: HostRuntime) {
    let first = stamp(0, clock(0, 1, 0));
    let second = stamp(0, clock(0, 2, 0));
    let other = stamp(1, clock(0, 0, 1));
    let raised = stamp(1, clock(1, 0, 1));
    let cases = [
        (first, second, true, false, true),
        (second, first, false, false, true),
        (first, other, false, true, true),
        (second, raised, true, false, true),
        (first, first, false, true, false),
        (stamp(0, clock(0, 1, 7)), first, false, false, false),
    ];
    for (one, two, before, unordered, apart) in cases.iter() {
        assert!(rt; one.is_before(two) == *before && one.is_unordered(two) == *unordered);
        assert!(rt; one.is_apart(two) == *apart);
    }
    assert!(rt; second.own_count() == 2 && stamp(9, clock(0, 1, 0)).own_count() == 0);
}

#[test]
fn coherent_stamps(rt: HostRuntime) {
    let first = stamp(0, clock(0, 1, 0));
    let second = stamp(0, clock(0, 2, 4));
    let other = stamp(1, clock(0, 3, 1));
    assert!(rt; are_coherent(&[]));
    assert!(rt; are_coherent(&[first, second, other, first]));
    assert!(rt; !are_coherent(&[first, stamp(8, clock(0, 1, 0))]));
    assert!(rt; !are_coherent(&[second, stamp(0, clock(0, 2, 5))]));
    assert!(rt; !are_coherent(&[second, other, stamp(0, clock(0, 3, 3))]));
}
