//! What calls answer, as texts.

use crate::texts::{write_clock, write_message, write_stamp, write_state, write_verdict};
use crate::values::{Do, letter};
use gatekeeper::GateFault;
use graph_ops::{Op, Record};
use shard_node::{ApplyFault, VisitFault};
use shard_queue::Arrival;
use std::alloc::Global;
use std::process::Abort;
use vector_stamp::{Clock, Stamp};
use weave_entries::{Message, Verdict};
use weave_text::Text;

/// The word alone.
pub fn word(rt: &impl Abort, alloc: Global, word: &[u8]) -> Vec<u8> {
    let mut text = Text::new(alloc);
    text.push(word).expect(rt, "memory");
    text.into_bytes()
}

pub fn ok(rt: &impl Abort, alloc: Global) -> Vec<u8> {
    word(rt, alloc, b"ok")
}

pub fn stamp_text(rt: &impl Abort, alloc: Global, stamp: &Stamp) -> Vec<u8> {
    let mut text = Text::new(alloc);
    write_stamp(&mut text, stamp).expect(rt, "memory");
    text.into_bytes()
}

pub fn clock_text(rt: &impl Abort, alloc: Global, clock: &Clock) -> Vec<u8> {
    let mut text = Text::new(alloc);
    write_clock(&mut text, clock).expect(rt, "memory");
    text.into_bytes()
}

pub fn number_text(rt: &impl Abort, alloc: Global, number: u64) -> Vec<u8> {
    let mut text = Text::new(alloc);
    text.number(number).expect(rt, "memory");
    text.into_bytes()
}

pub fn verdict_text(rt: &impl Abort, alloc: Global, verdict: &Verdict) -> Vec<u8> {
    let mut text = Text::new(alloc);
    write_verdict(&mut text, verdict).expect(rt, "memory");
    text.into_bytes()
}

pub fn state_text(rt: &impl Abort, alloc: Global, state: &Option<Record>) -> Vec<u8> {
    let mut text = Text::new(alloc);
    write_state(&mut text, state).expect(rt, "memory");
    text.into_bytes()
}

pub fn message_text(rt: &impl Abort, alloc: Global, message: Option<&Message>) -> Vec<u8> {
    let Some(message) = message else {
        return word(rt, alloc, b"none");
    };
    let mut text = Text::new(alloc);
    write_message(&mut text, message).expect(rt, "memory");
    text.into_bytes()
}

pub fn arrival_text(rt: &impl Abort, alloc: Global, arrival: Arrival) -> Vec<u8> {
    match arrival {
        Arrival::Kept => word(rt, alloc, b"kept"),
        Arrival::Repeat => word(rt, alloc, b"repeat"),
    }
}

pub fn fault_text(rt: &impl Abort, alloc: Global, fault: GateFault) -> Vec<u8> {
    match fault {
        GateFault::Busy => word(rt, alloc, b"busy"),
        GateFault::Idle => word(rt, alloc, b"idle"),
        GateFault::Old => word(rt, alloc, b"old"),
        GateFault::Memory => word(rt, alloc, b"memory"),
    }
}

pub fn unapplied_text(rt: &impl Abort, alloc: Global, fault: &ApplyFault) -> Vec<u8> {
    match fault {
        ApplyFault::Empty => word(rt, alloc, b"empty"),
        ApplyFault::Waits { vertex } => {
            let mut text = Text::new(alloc);
            text.push(b"waits for ").expect(rt, "memory");
            text.push(vertex.bytes()).expect(rt, "memory");
            text.into_bytes()
        }
        ApplyFault::Memory => word(rt, alloc, b"memory"),
    }
}

pub fn unread_text(rt: &impl Abort, alloc: Global, fault: VisitFault) -> Vec<u8> {
    match fault {
        VisitFault::Again { gate } => {
            let mut text = Text::new(alloc);
            text.push(b"again for ").expect(rt, "memory");
            text.number(u64::from(gate)).expect(rt, "memory");
            text.into_bytes()
        }
        VisitFault::Memory => word(rt, alloc, b"memory"),
    }
}

fn op_of(rt: &impl Abort, deed: Do) -> Op {
    match deed {
        Do::Create(v) => Op::Create { v: letter(rt, v) },
        Do::Delete(v) => Op::Delete { v: letter(rt, v) },
        Do::Set(v) => Op::Set {
            v: letter(rt, v),
            key: letter(rt, b'k'),
            value: letter(rt, b'x'),
        },
        Do::Get(v) => Op::Get { v: letter(rt, v) },
    }
}

/// The operations.
pub fn ops_of(rt: &impl Abort, alloc: Global, deeds: &[Do]) -> Vec<Op> {
    let mut ops = Vec::new(alloc);
    for deed in deeds {
        ops.push(op_of(rt, *deed)).expect(rt, "memory");
    }
    ops
}
