//! A gatekeeper that stops with a transaction in flight and running programs, and returns.
ghost use Rattle.std.specs.Prelude.{◌≡◌, []};
ghost use Rattle.std.specs.Option.{ForSome};
ghost use Rattle.weave_entries.specs.GateReplay.{flight_of};
ghost use Rattle.machine_tests.specs.OpenLog.{log_with_open};

use crate::values::{clock, stamp_in};
use gatekeeper::{Gate, GateFault, Open};
use graph_ops::Reason;
use std::alloc::Global;
use std::process::Abort;
use vector_stamp::{Clock, Stamp};
use weave_entries::Verdict;

// The stamps of three programs and a transaction.
#[derive(Clone, Copy, PartialEq, Eq, Debug)]
struct Begun {
    first: Stamp,
    finished: Stamp,
    second: Stamp,
    flight: Stamp,
}

// Authors 7 and 8 begin a program of one number, and 8 finishes it and begins another one. A transaction of author 9 is
// in flight.
fn begin_four(rt: &impl Abort, alloc: Global, gate: &mut Gate) -> Begun
    requires { gate.old.log ≡ [] }
    ensures shards { gate.new.shards ≡ gate.old.shards }
    ensures log { gate.new.log ≡ log_with_open result.first result.finished result.second result.flight }
{
    let first = gate.begin_program(alloc, 7, 1, None).expect(rt, "no stamp");
    let finished = gate.begin_program(alloc, 8, 1, None).expect(rt, "no stamp");
    gate.finish(alloc, 8, 1).expect(rt, "not finished");
    let second = gate.begin_program(alloc, 8, 2, None).expect(rt, "no stamp");
    let flight = gate.begin_tx(alloc, 9, 3, None).expect(rt, "no stamp");
    Begun {
        first,
        finished,
        second,
        flight,
    }
}

// It stops, and returns in epoch 1. The programs are handed in in the other order.
fn stop_and_return(rt: &impl Abort, alloc: Global, gate: Gate, begun: Begun) -> Gate
    requires { gate.log ≡ log_with_open begun.first begun.finished begun.second begun.flight }
    ensures shards { result.shards ≡ gate.shards }
    ensures flies { ForSome (flight_of result.log) (λ flight. flight.author ≡ 9) }
{
    let mut gate = gate;
    gate.reserve(alloc, 1).expect(rt, "memory");
    assert!(rt; gate.say().epoch < 1);
    let second = Open {
        request: 2,
        stamp: begun.second,
    };
    let first = Open {
        request: 1,
        stamp: begun.first,
    };
    let running = Vec::from_array(alloc, [second, first]).expect(rt, "memory");
    Gate::returned(gate.stop(), 0, 1, Some(3), running)
}

// The transaction is in flight again, under its author and with its stamp, and the clock is that of the new epoch.
fn is_back(rt: &impl Abort, gate: &Gate, begun: Begun) {
    assert!(rt; gate.say() == clock(1, 0, 0));
    let flight = gate.flight().expect(rt, "no transaction in flight");
    if flight.author != 9 || flight.request != 3 || flight.stamp != begun.flight {
        panic!(rt; "another transaction in flight");
    }
}

// It is aborted.
fn abort_flight(rt: &impl Abort, alloc: Global, gate: &mut Gate)
    requires { ForSome (flight_of gate.old.log) (λ flight. flight.author ≡ 9) }
    ensures { gate.new.shards ≡ gate.old.shards }
{
    let aborted = Verdict::Refused {
        op: 1,
        reason: Reason::Missing,
        at: 0,
    };
    gate.send(alloc, 9, &[], &aborted).expect(rt, "not sent");
}

// An empty message has this number, the next stamp of epoch 1, and this low mark.
fn sends_nop(rt: &impl Abort, alloc: Global, gate: &mut Gate, number: u64, low: Clock)
    requires { gate.old.shards ≡ 1 }
    ensures { gate.new.shards ≡ 1 }
{
    let sent = gate.nop(alloc, 0, 0).expect(rt, "not sent");
    assert!(rt; sent == number);
    let message = gate.fetch(0, number).expect(rt, "no message");
    assert!(rt; message.stamp == stamp_in(1, 0, [number, 0, 0, 0, 0, 0, 0, 0]));
    assert!(rt; message.low == low);
}

// The programs run under their authors, and the low mark is that of the oldest one that runs.
fn programs_go_on(rt: &impl Abort, alloc: Global, gate: &mut Gate, begun: Begun)
    requires { gate.old.shards ≡ 1 }
{
    sends_nop(rt, alloc, gate, 1, begun.first.clock);
    assert!(rt; gate.finish(alloc, 8, 1) == Err(GateFault::Idle));
    assert!(rt; gate.finish(alloc, 7, 1) == Ok(()));
    sends_nop(rt, alloc, gate, 2, begun.second.clock);
    assert!(rt; gate.finish(alloc, 8, 2) == Ok(()));
    assert!(rt; gate.finish(alloc, 8, 2) == Err(GateFault::Idle));
    sends_nop(rt, alloc, gate, 3, clock(1, 3, 0));
}

#[test]
fn what_was_begun_is_found_again(rt: HostRuntime) {
    let alloc = rt.alloc();
    let mut gate = Gate::new(alloc, 0, 2, 1).expect(&rt, "no gatekeeper");
    let begun = begin_four(&rt, alloc, &mut gate);
    let mut gate = stop_and_return(&rt, alloc, gate, begun);
    is_back(&rt, &gate, begun);
    abort_flight(&rt, alloc, &mut gate);
    programs_go_on(&rt, alloc, &mut gate, begun);
}
