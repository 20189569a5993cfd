//! A judge for the tests, and what a call that asks it needs.
ghost use Rattle.std.specs.Prelude.{◌≡◌, ◌≢◌, ℕ, ◌<◌, ◌∷◌, ◌++◌, [], length, All, IsTrue, IfSome};
ghost use Rattle.std.specs.List.{flat_map};
ghost use Rattle.vector_stamp.specs.declared.clock.Stamp.{Stamp};
ghost use Rattle.vector_stamp.specs.Order.{id_of};
ghost use Rattle.vector_stamp.specs.Coherence.{AreCoherent};
ghost use Rattle.vector_stamp.specs.Precedence.{precedes};
ghost use Rattle.vector_stamp.specs.Settling.{refused_place, additions_from};
ghost use Rattle.machine_tests.specs.PairEnds.{ends};

use std::alloc::Global;
use std::marker::Model;
use std::process::Abort;
use vector_stamp::{EventId, Judge, Refusal, Settled, Stamp, are_coherent};
use weave_data::Items;

/// It looks for paths as the definition does, and adds at most one pair a call. If it would have to add more than one,
/// or any once `is_full` is set, it is out of memory.
#[derive(Drop)]
pub struct TestJudge {
    pub pairs: Vec<(Stamp, Stamp)>,
    pub is_full: bool,
    // How many times it was called, whatever it answered. Contracts don't see it.
    pub calls: u32,
}

impl Model for TestJudge {
    ghost use Rattle.std.specs.Prelude.{List};
    ghost use Rattle.vector_stamp.specs.Precedence.{GivenPair};

    ghost Value = { List GivenPair };

    ghost view = { λ j. j.pairs.items };
}

impl Judge for TestJudge {
    ghost use Rattle.std.specs.Prelude.{[], false};
    ghost use Rattle.std.specs.List.{flat_map};
    ghost use Rattle.machine_tests.specs.PairEnds.{ends, test_ends_joined};

    ghost pairs = { λ judge. judge };

    ghost known = { λ judge. flat_map ends judge };

    ghost keeps_log = { false };

    ghost log_of = { λ judge. [] };

    ghost pairs_known = { test_ends_joined };

    fn settle(
        &mut self,
        alloc: Global,
        _author: u32,
        earlier: &[Stamp],
        later: Stamp,
        keep: bool,
    ) -> Result<Settled, Refusal> {
        self.calls = self.calls.saturating_add(1);
        if let Some(place) = first_preceded(self.pairs.as_slice(), earlier, &later) {
            return Err(Refusal::Precedes {
                place: place as u32,
            });
        }
        let mut places = Items::new(alloc);
        if !keep || all_precede(self.pairs.as_slice(), earlier, &later) {
            return Ok(Settled { places });
        }
        let Some((event, others)) = earlier.split_first() else {
            return Err(Refusal::Memory);
        };
        if self.is_full || !others.is_empty() || leads(self.pairs.as_slice(), event, &later) {
            return Err(Refusal::Memory);
        }
        places.push(0)?;
        self.pairs.reserve(1)?;
        self.pairs.push_reserved((*event, later));
        Ok(Settled { places })
    }
}

// Whether the first stamp precedes the second one by the order of stamps and the pairs.
fn leads(pairs: &[(Stamp, Stamp)], a: &Stamp, b: &Stamp) -> bool
    ensures { result ≡ precedes pairs.now a.now b.now }
{
    let Some((pair, rest)) = pairs.split_first() else {
        return a.is_before(b);
    };
    if leads(rest, a, b) {
        return true;
    }
    let to_pair = *a == pair.0 || leads(rest, a, &pair.0);
    let from_pair = pair.1 == *b || leads(rest, &pair.1, b);
    to_pair && from_pair
}

// The place of the first earlier event that the later one precedes.
fn first_preceded(pairs: &[(Stamp, Stamp)], earlier: &[Stamp], later: &Stamp) -> Option<usize>
    ensures place { result ≡ refused_place pairs.now earlier.now later.now }
    ensures within { IfSome result (λ place. place < length earlier.now) }
{
    earlier.iter().position(|event| leads(pairs, later, event))
}

// Whether each earlier event precedes the later one already.
fn all_precede(pairs: &[(Stamp, Stamp)], earlier: &[Stamp], later: &Stamp) -> bool
    ensures { (place : ℕ) → IsTrue result → additions_from place pairs.now earlier.now later.now ≡ [] }
{
    let Some((event, events)) = earlier.split_first() else {
        return true;
    };
    leads(pairs, event, later) && all_precede(pairs, events, later)
}

/// A judge with these pairs.
pub fn judge_of(rt: &impl Abort, alloc: Global, pairs: &[(Stamp, Stamp)]) -> TestJudge {
    TestJudge {
        pairs: Vec::from_slice(alloc, pairs).expect(rt, "memory"),
        is_full: false,
        calls: 0,
    }
}

/// A judge with these pairs, which adds none.
pub fn full_judge(pairs: Vec<(Stamp, Stamp)>) -> TestJudge
    ensures { result ≡ pairs.items }
{
    TestJudge {
        pairs,
        is_full: true,
        calls: 0,
    }
}

/// What identifies the event of a stamp.
pub fn id_of_stamp(stamp: &Stamp) -> EventId
    ensures { result ≡ id_of stamp.now }
{
    EventId {
        home: stamp.home,
        epoch: stamp.clock.epoch,
        count: stamp.own_count(),
    }
}

/// Whether the event of a stamp is none of these.
pub fn are_others(events: &[Stamp], stamp: &Stamp) -> bool
    ensures { IsTrue result → All (λ (event : Stamp). id_of event ≢ id_of stamp.now) events.now }
{
    let Some((event, others)) = events.split_first() else {
        return true;
    };
    id_of_stamp(event) != id_of_stamp(stamp) && are_others(others, stamp)
}

// A program's stamp, those of events, and those of pairs.
fn together(
    rt: &impl Abort,
    alloc: Global,
    program: Stamp,
    events: &[Stamp],
    pairs: &[(Stamp, Stamp)],
) -> Vec<Stamp>
    ensures { result.items ≡ program ∷ events.now ++ flat_map ends pairs.now }
{
    let mut all = Vec::new(alloc);
    all.push(program).expect(rt, "memory");
    all.extend_from_slice(events).expect(rt, "memory");
    for pair in pairs {
        all.push(pair.0).expect(rt, "memory");
        all.push(pair.1).expect(rt, "memory");
    }
    all
}

/// A program is none of these events, and their stamps are coherent with its own and with those that the judge knows.
pub fn expect_coherent(
    rt: &impl Abort,
    alloc: Global,
    program: Stamp,
    events: &[Stamp],
    judge: &TestJudge,
)
    ensures others { All (λ (event : Stamp). id_of event ≢ id_of program) events.now }
    ensures coherent { AreCoherent (program ∷ events.now ++ flat_map ends judge.now) }
{
    let all = together(rt, alloc, program, events, judge.pairs.as_slice());
    if !are_coherent(all.as_slice()) {
        panic!(rt; "not coherent");
    }
    if !are_others(events, &program) {
        panic!(rt; "the program is one of the updates");
    }
}
