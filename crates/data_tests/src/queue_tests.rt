ghost use Rattle.std.specs.Prelude.{◌≡◌, []};

use shard_queue::{Arrival, Inbox, Outbox};
use std::alloc::{AllocError, Global};
use std::process::Abort;
use vector_stamp::{Clock, Stamp, Stamped};

// A message of the gatekeeper of home 0 after `count` events.
#[derive(Drop)]
struct Note {
    count: u64,
}

impl Stamped for Note {
    ghost use Rattle.std.specs.Prelude.{[], ◌∷◌};

    ghost stamp_of = { λ note. record {
      home = 0;
      clock = record { epoch = 0; counts = note.count ∷ 0 ∷ 0 ∷ 0 ∷ 0 ∷ 0 ∷ 0 ∷ 0 ∷ [] };
    } };

    fn stamp(&self) -> Stamp {
        Stamp {
            home: 0,
            clock: Clock {
                epoch: 0,
                counts: [self.count, 0, 0, 0, 0, 0, 0, 0],
            },
        }
    }
}

fn count_of(note: Option<&Note>) -> Option<u64> {
    Some(note?.count)
}

// The messages of these numbers.
fn has_sent(rt: &impl Abort, outbox: &Outbox<Note>, rows: &[(u64, Option<u64>)]) {
    for row in rows {
        assert!(rt; count_of(outbox.get(row.0)) == row.1);
    }
}

// Two messages are sent, after room was taken for one.
fn send_two(rt: &impl Abort, alloc: Global, outbox: &mut Outbox<Note>)
    requires { outbox.old.sent ≡ [] }
{
    assert!(rt; outbox.count() == 0);
    outbox.reserve(alloc).expect(rt, "memory");
    assert!(rt; outbox.push(alloc, Note { count: 3 }).ok() == Some(1));
    assert!(rt; outbox.push(alloc, Note { count: 5 }).ok() == Some(2));
    assert!(rt; outbox.count() == 2);
}

#[test]
fn what_was_sent(rt: HostRuntime) {
    let rows = [(0, None), (1, Some(3)), (2, Some(5)), (3, None)];
    let mut outbox = Outbox::new(rt.alloc());
    send_two(&rt, rt.alloc(), &mut outbox);
    has_sent(&rt, &outbox, &rows);
}

fn make_note(count: u64) -> Note {
    Note { count }
}

// Three messages are sent.
fn three_sent(rt: &impl Abort, alloc: Global) -> Outbox<Note> {
    let mut outbox = Outbox::new(alloc);
    outbox
        .push(alloc, Note { count: 3 })
        .ok()
        .expect(rt, "memory");
    outbox
        .push(alloc, Note { count: 5 })
        .ok()
        .expect(rt, "memory");
    outbox
        .push(alloc, Note { count: 9 })
        .ok()
        .expect(rt, "memory");
    outbox
}

// The message of a number is fetched and delivered; `None` if it was not sent.
fn deliver(
    rt: &impl Abort,
    alloc: Global,
    outbox: &Outbox<Note>,
    inbox: &mut Inbox<Note>,
    number: u64,
) -> Option<Arrival> {
    let count = outbox.get(number)?.count;
    if number == 0 {
        panic!(rt; "numbers are from 1");
    }
    let had = inbox.has(number);
    let arrival = inbox
        .arrive(alloc, number, make_note(count))
        .expect(rt, "memory");
    assert!(rt; inbox.has(number) && had == (arrival == Arrival::Repeat));
    Some(arrival)
}

// A message is delivered out of order, or again, with this answer.
fn delivers(
    rt: &impl Abort,
    alloc: Global,
    outbox: &Outbox<Note>,
    inbox: &mut Inbox<Note>,
    number: u64,
    answer: Option<Arrival>,
) {
    assert!(rt; number == 3 || inbox.has(3) && inbox.last().is_none());
    assert!(rt; inbox.head().is_some() == inbox.has(1));
    let arrival = deliver(rt, alloc, outbox, inbox, number);
    assert!(rt; arrival == answer);
}

// The head has this number, and is of a message after that many events. It is processed.
fn advances(rt: &impl Abort, inbox: &mut Inbox<Note>, number: u64, count: u64) {
    assert!(rt; count_of(inbox.head()) == Some(count));
    if !inbox.head().is_some() {
        panic!(rt; "no head");
    }
    if number != inbox.next() || 3 < number {
        panic!(rt; "another number");
    }
    inbox.advance();
    assert!(rt; inbox.last() == Some(make_note(count).stamp()));
}

// What was delivered is processed, and each message is delivered once more.
fn advance_each(rt: &impl Abort, alloc: Global, outbox: &Outbox<Note>, inbox: &mut Inbox<Note>) {
    for (number, count) in [(1, 3), (2, 5), (3, 9)] {
        advances(rt, inbox, number, count);
        let again = deliver(rt, alloc, outbox, inbox, number);
        assert!(rt; again == Some(Arrival::Repeat));
    }
    assert!(rt; inbox.head().is_none());
}

fn deliver_each(rt: &impl Abort, alloc: Global, outbox: &Outbox<Note>, inbox: &mut Inbox<Note>) {
    let rows = [
        (3, Some(Arrival::Kept)),
        (1, Some(Arrival::Kept)),
        (1, Some(Arrival::Repeat)),
        (2, Some(Arrival::Kept)),
        (4, None),
    ];
    for (number, answer) in rows {
        delivers(rt, alloc, outbox, inbox, number, answer);
    }
}

// What arrives out of order, or again, is processed once, in the order of numbers. A fourth message was never sent.
#[test]
fn what_arrived(rt: HostRuntime) {
    let alloc = rt.alloc();
    let outbox = three_sent(&rt, alloc);
    let mut inbox = Inbox::new(alloc);
    deliver_each(&rt, alloc, &outbox, &mut inbox);
    advance_each(&rt, alloc, &outbox, &mut inbox);
}

// Three messages are sent, the last one after room was taken twice.
fn send_three(rt: &impl Abort, alloc: Global, outbox: &mut Outbox<Note>)
    requires { outbox.old.sent ≡ [] }
{
    assert!(rt; outbox.push(alloc, Note { count: 3 }).ok() == Some(1));
    assert!(rt; outbox.push(alloc, Note { count: 4 }).ok() == Some(2));
    outbox.reserve(alloc).expect(rt, "memory");
    outbox.reserve(alloc).expect(rt, "memory");
    assert!(rt; outbox.push(alloc, Note { count: 9 }).ok() == Some(3));
}

// Messages are sent without room that was taken before, and with it.
#[test]
fn sends_with_room_and_without(rt: HostRuntime) {
    let mut outbox = Outbox::new(rt.alloc());
    send_three(&rt, rt.alloc(), &mut outbox);
    has_sent(&rt, &outbox, &[(3, Some(9))]);
}

// Forty messages arrive with this answer, the last one first.
fn arrive_forty(
    rt: &impl Abort,
    alloc: Global,
    inbox: &mut Inbox<Note>,
    answer: &Result<Arrival, AllocError>,
) {
    for before in 0..40 {
        assert!(rt; inbox.arrive(alloc, 40 - before, make_note(before)) == *answer);
    }
}

// Forty messages arrive, the last one first, and then once more.
#[test]
fn many_wait(rt: HostRuntime) {
    let mut inbox = Inbox::new(rt.alloc());
    arrive_forty(&rt, rt.alloc(), &mut inbox, &Ok(Arrival::Kept));
    arrive_forty(&rt, rt.alloc(), &mut inbox, &Ok(Arrival::Repeat));
    assert!(rt; count_of(inbox.head()) == Some(39));
}
