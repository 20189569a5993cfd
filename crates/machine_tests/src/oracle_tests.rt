ghost use Rattle.std.specs.Prelude.{◌<◌, Contains};
ghost use Rattle.weave_data.specs.Limits.{most_gates};
ghost use Rattle.vector_stamp.specs.declared.clock.Stamp.{Stamp};
ghost use Rattle.vector_stamp.specs.Coherence.{AreCoherent};
ghost use Rattle.order_graph.specs.Building.{ends_of};
ghost use Rattle.timeline_oracle.specs.Log.{pairs_of_log};

use crate::events::events_in_turn;
use crate::settled::is_entry;
use crate::test_judge::are_others;
use crate::values::{stamp, stamp_in};
use std::alloc::Global;
use std::marker::Model;
use std::process::Abort;
use timeline_oracle::Oracle;
use vector_stamp::laws::parts_and_unions_are_coherent;
use vector_stamp::{Judge, Refusal, Settled, Stamp, are_coherent};
use weave_entries::OracleEntry;

// An oracle, and stamps among which are those of all its pairs.
#[derive(Drop)]
struct Row {
    oracle: Oracle,
    kept: Vec<Stamp>,
}

impl Model for Row {
    ghost use Rattle.std.specs.Prelude.{List};
    ghost use Rattle.vector_stamp.specs.declared.clock.Stamp.{Stamp};
    ghost use Rattle.order_graph.specs.Building.{ends_of};
    ghost use Rattle.timeline_oracle.specs.Log.{pairs_of_log};
    ghost use Rattle.machine_tests.specs.Covers.{IsAmong};

    ghost Value = { List Stamp };

    ghost view = { λ r. r.kept.items };

    ghost invariant = { λ r. IsAmong (ends_of (pairs_of_log r.oracle)) r.kept.items };
}

fn new_oracle(alloc: Global) -> Row {
    Row {
        oracle: Oracle::new(alloc),
        kept: Vec::new(alloc),
    }
}

// Settles under the conditions of `settle`. What was handed in so far is kept.
fn settle(
    rt: &impl Abort,
    alloc: Global,
    row: &mut Row,
    author: u32,
    earlier: &[Stamp],
    later: Stamp,
    keep: bool,
) -> Result<Settled, Refusal> {
    parts_and_unions_are_coherent();
    row.kept.push(later).expect(rt, "memory");
    row.kept.extend_from_slice(earlier).expect(rt, "memory");
    let all = row.kept.as_slice();
    if !are_coherent(all) {
        panic!(rt; "not coherent");
    }
    if !are_others(earlier, &later) {
        panic!(rt; "the later event is one of the earlier ones");
    }
    if earlier.len() > 1000 {
        panic!(rt; "too many events");
    }
    row.oracle.settle(alloc, author, earlier, later, keep)
}

fn has_places(answer: &Result<Settled, Refusal>, places: &[u32]) -> bool {
    match answer {
        Ok(settled) => settled.places.as_slice() == places,
        Err(_) => false,
    }
}

fn is_refused_at(answer: &Result<Settled, Refusal>, at: u32) -> bool {
    match answer {
        Ok(_) => false,
        Err(refusal) => *refusal == Refusal::Precedes { place: at },
    }
}

// Whether the answer has these places, or is refused at this one.
fn is_answer(answer: &Result<Settled, Refusal>, wanted: Result<&[u32], u32>) -> bool {
    match wanted {
        Ok(places) => has_places(answer, places),
        Err(place) => is_refused_at(answer, place),
    }
}

// A call of the oracle has this answer.
fn settles_as(
    rt: &impl Abort,
    alloc: Global,
    row: &mut Row,
    author: u32,
    earlier: &[Stamp],
    later: Stamp,
    keep: bool,
    wanted: Result<&[u32], u32>,
) {
    let answer = settle(rt, alloc, row, author, earlier, later, keep);
    if !is_answer(&answer, wanted) {
        panic!(rt; "another answer");
    }
}

// A call of the oracle, its answer, and how many entries the log then has.
#[derive(Clone, Copy)]
struct Call<'a> {
    earlier: &'a [Stamp],
    later: Stamp,
    keep: bool,
    wanted: Result<&'a [u32], u32>,
    entries: usize,
}

// A call that keeps pairs.
fn keeping<'a>(
    earlier: &'a [Stamp],
    later: Stamp,
    wanted: Result<&'a [u32], u32>,
    entries: usize,
) -> Call<'a> {
    Call {
        earlier,
        later,
        keep: true,
        wanted,
        entries,
    }
}

// The calls have their answers, one after another. Their authors are numbered from 1.
fn answer_each(rt: &impl Abort, alloc: Global, row: &mut Row, calls: &[Call]) {
    let mut author = 0u32;
    for one in calls {
        author = author.wrapping_add(1);
        let (earlier, later) = (one.earlier, one.later);
        settles_as(rt, alloc, row, author, earlier, later, one.keep, one.wanted);
        if row.oracle.log().len() != one.entries {
            panic!(rt; "another log");
        }
    }
}

// The entry is that of a call which added pairs.
fn is_entry_of(rt: &impl Abort, entry: Option<&OracleEntry>, author: u32, call: &Call) {
    let Some(entry) = entry else {
        panic!(rt; "no entry");
    };
    let Ok(places) = call.wanted else {
        panic!(rt; "no pairs");
    };
    if !is_entry(entry, author, call.earlier, &call.later, places) {
        panic!(rt; "another entry");
    }
}

// The log has the entries of those calls that added pairs, and no others.
fn is_log_of(rt: &impl Abort, log: &[OracleEntry], calls: &[Call]) {
    let (mut author, mut entries) = (0u32, 0);
    for one in calls {
        author = author.wrapping_add(1);
        if one.entries != entries {
            is_entry_of(rt, log.get(entries), author, one);
            entries = one.entries;
        }
    }
    if log.len() != entries {
        panic!(rt; "another number of entries");
    }
}

// A new oracle has these answers, and then the log of these calls.
fn answer_all(rt: &impl Abort, alloc: Global, calls: &[Call]) {
    let mut row = new_oracle(alloc);
    answer_each(rt, alloc, &mut row, calls);
    is_log_of(rt, row.oracle.log(), calls);
}

// The conflict through a path: z precedes y by its stamp before x and the pair of x and y.
#[test]
fn settles(rt: HostRuntime) {
    let (none, first): (&[u32], &[u32]) = (&[], &[0]);
    let (q, x) = ([stamp(1, 0, 1, 0)], [stamp(0, 1, 0, 1)]);
    let (y, z) = (stamp(1, 0, 2, 0), [stamp(2, 0, 0, 1)]);
    let through_a_path = [q[0], y];
    let mut calls = [
        keeping(&x, y, Ok(first), 1),
        keeping(&x, y, Ok(none), 1),
        keeping(&through_a_path, z[0], Err(1), 1),
        // by stamps
        keeping(&x, z[0], Err(0), 1),
        // through x
        keeping(&z, y, Ok(none), 1),
        // not kept
        keeping(&q, z[0], Ok(none), 1),
        keeping(&q, z[0], Ok(first), 2),
    ];
    calls[5].keep = false;
    answer_all(&rt, rt.alloc(), &calls);
}

// Settles one of the events before another, under the condition of `settle`, with this answer.
fn settle_one(
    rt: &impl Abort,
    alloc: Global,
    oracle: &mut Oracle,
    events: &[Stamp],
    earlier: Stamp,
    later: Stamp,
    wanted: Result<&[u32], u32>,
)
    requires earlier { Contains events.now earlier }
    requires later { Contains events.now later }
    requires coherent { AreCoherent events.now }
    requires known { (stamp : Stamp) → Contains (ends_of (pairs_of_log oracle.old)) stamp → Contains events.now stamp }
    ensures { (stamp : Stamp) → Contains (ends_of (pairs_of_log oracle.new)) stamp → Contains events.now stamp }
{
    parts_and_unions_are_coherent();
    let handed = [earlier];
    if !are_others(&handed, &later) {
        panic!(rt; "one event with itself");
    }
    let answer = oracle.settle(alloc, 1, &handed, later, true);
    if !is_answer(&answer, wanted) {
        panic!(rt; "another answer");
    }
}

// Each event is settled before the next one, and then the ends of the chain are asked.
fn settle_chain(rt: &impl Abort, alloc: Global, events: &[Stamp]) {
    assert!(rt; events.len() == 10001);
    assert!(rt; are_coherent(events));
    let mut oracle = Oracle::new(alloc);
    for place in 0..10000 {
        let (earlier, later) = (events[place], events[place + 1]);
        settle_one(rt, alloc, &mut oracle, events, earlier, later, Ok(&[0]));
    }
    let (first, last) = (events[0], events[10000]);
    settle_one(rt, alloc, &mut oracle, events, last, first, Err(0));
    settle_one(rt, alloc, &mut oracle, events, first, last, Ok(&[]));
    assert!(rt; oracle.log().len() == 10000);
}

#[test]
fn chain_of_10000_pairs(rt: HostRuntime) {
    let events = events_in_turn(&rt, rt.alloc(), 10001);
    settle_chain(&rt, rt.alloc(), events.as_slice());
}

// Three earlier events of other gatekeepers: a pair for each that does not precede yet, and a refusal at each place.
#[test]
fn three_earlier_events(rt: HostRuntime) {
    let (a, b, c) = (stamp(0, 1, 0, 0), stamp(1, 0, 1, 0), stamp(2, 0, 0, 1));
    let (d, e, f) = (stamp(0, 2, 0, 0), stamp(1, 0, 2, 0), stamp(2, 0, 0, 2));
    let late = stamp_in(0, 3, [0, 0, 0, 1, 0, 0, 0, 0]);
    let put = [[a, b, c], [a, e, c], [b, a, f], [d, e, f]];
    let refused = [[late, d, b], [b, late, c], [b, c, d]];
    let calls = [
        keeping(&put[0], late, Ok(&[0, 1, 2]), 1),
        keeping(&put[1], late, Ok(&[1]), 2),
        keeping(&put[2], late, Ok(&[2]), 3),
        keeping(&put[3], late, Ok(&[0]), 4),
        keeping(&refused[0], a, Err(0), 4),
        keeping(&refused[1], a, Err(1), 4),
        keeping(&refused[2], a, Err(2), 4),
    ];
    answer_all(&rt, rt.alloc(), &calls);
}

// The first event of a gatekeeper that has heard no other.
fn first_of(home: usize) -> Stamp
    requires { home < most_gates }
{
    let mut counts = [0; 8];
    counts[home] = 1;
    stamp_in(0, home as u32, counts)
}

// These of three events.
fn chosen(rt: &impl Abort, alloc: Global, events: &[Stamp; 3], places: &[usize]) -> Vec<Stamp> {
    let mut some = Vec::new(alloc);
    for place in places {
        let event = events.get(*place).copied().expect(rt, "no event");
        some.push(event).expect(rt, "memory");
    }
    some
}

// A new oracle puts some events before the later one, and then all of them: so pairs are added for the others.
fn settle_rest(
    rt: &impl Abort,
    alloc: Global,
    before: &[Stamp],
    all: &[Stamp],
    later: Stamp,
    places: &[u32],
) {
    let mut row = new_oracle(alloc);
    let first = settle(rt, alloc, &mut row, 1, before, later, true);
    assert!(rt; first.is_ok());
    settles_as(rt, alloc, &mut row, 2, all, later, false, Ok(&[]));
    settles_as(rt, alloc, &mut row, 3, all, later, true, Ok(places));
}

// Of three events those that are put first, those that are put then, and the places of the pairs that are added then.
const CHOICES: [(&[usize], &[usize], &[u32]); 11] = [
    (&[], &[], &[]),
    (&[], &[0], &[0]),
    (&[], &[0, 1], &[0, 1]),
    (&[], &[0, 1, 2], &[0, 1, 2]),
    (&[0], &[0, 1, 2], &[1, 2]),
    (&[1], &[0, 1, 2], &[0, 2]),
    (&[2], &[0, 1, 2], &[0, 1]),
    (&[1, 2], &[0, 1, 2], &[0]),
    (&[2, 0], &[0, 1, 2], &[1]),
    (&[0, 1], &[0, 1, 2], &[2]),
    (&[0, 1, 2], &[0, 1, 2], &[]),
];

// Pairs for each choice of three events of other gatekeepers, and of none, one and two.
fn settle_each_choice(rt: &impl Abort, alloc: Global, later: Stamp, events: &[Stamp; 3]) {
    for (before, all, places) in CHOICES {
        let before = chosen(rt, alloc, events, before);
        let all = chosen(rt, alloc, events, all);
        settle_rest(rt, alloc, &before, &all, later, places);
    }
}

// The first events of the three gatekeepers after this one.
fn three_after(home: usize) -> [Stamp; 3]
    requires { home < most_gates }
{
    [
        first_of((home + 1) % 8),
        first_of((home + 2) % 8),
        first_of((home + 3) % 8),
    ]
}

#[test]
fn settles_at_each_gatekeeper(rt: HostRuntime) {
    for home in 0..8 {
        settle_each_choice(&rt, rt.alloc(), first_of(home), &three_after(home));
    }
}

// The later event was put before one of the earlier ones: the call is refused there, whether pairs are to be kept or
// not.
fn refuse(rt: &impl Abort, alloc: Global, all: &[Stamp], later: Stamp, put: Stamp, place: u32) {
    let mut row = new_oracle(alloc);
    settles_as(rt, alloc, &mut row, 1, &[later], put, true, Ok(&[0]));
    settles_as(rt, alloc, &mut row, 2, all, later, false, Err(place));
    settles_as(rt, alloc, &mut row, 3, all, later, true, Err(place));
    assert!(rt; row.oracle.log().len() == 1);
}

#[test]
fn refuses_at_each_place(rt: HostRuntime) {
    for home in 0..8 {
        let (later, all) = (first_of(home), three_after(home));
        for (put, place) in [(all[0], 0), (all[1], 1), (all[2], 2)] {
            refuse(&rt, rt.alloc(), &all, later, put, place);
        }
    }
}
