//! A sink into memory.
ghost use Rattle.std.specs.Prelude.{◌≡◌, ◌≤◌, ◌+◌, [], Some, Ok, length, take, min, is_ok, IsErr, IfOk, OnErr, Contains, if◌then◌else◌};
ghost use Rattle.weave_io.specs.Counts.{HasRisen, one_more};
ghost use Rattle.weave_io.specs.Stall.{IsStall};
ghost use Rattle.weave_io.specs.Told.{Appends};

use crate::faults::Failed;
use crate::planned_failures::fails_next;
use crate::sink::Sink;
use std::alloc::Global;
use std::marker::Model;

/// Keeps what is written in memory, and fails when it is told to, or when it runs out of memory.
///
/// Contracts see the bytes taken, the numbers of the calls that fail, the most bytes that a call takes, and how many
/// calls there were, failed and took nothing.
#[derive(Drop)]
pub struct MemorySink {
    bytes: Vec<u8>,
    fails: Vec<u64>,
    piece: usize,
    calls: u64,
    faults: u64,
    stalls: u64,
}

impl Model for MemorySink {
    ghost use Rattle.weave_io.specs.Memory.{Writing};

    ghost Value = { Writing };

    ghost view = { λ s. record {
      written = s.bytes.items;
      fails = s.fails.items;
      piece = s.piece;
      calls = s.calls;
      faults = s.faults;
      stalls = s.stalls;
    } };
}

impl MemorySink {
    /// A sink with nothing written, of which a call takes at most `piece` bytes. The calls with the numbers in `fails`,
    /// counted from 1, fail. It takes no memory.
    pub fn new(alloc: Global, fails: Vec<u64>, piece: usize) -> MemorySink
        ensures { result ≡ record {
          written = [];
          fails = fails.items;
          piece = piece;
          calls = 0;
          faults = 0;
          stalls = 0;
        } }
    {
        MemorySink {
            bytes: Vec::new(alloc),
            fails,
            piece,
            calls: 0,
            faults: 0,
            stalls: 0,
        }
    }

    /// What was written.
    pub fn bytes(&self) -> &[u8]
        ensures { result.now ≡ self.now.written }
    {
        self.bytes.as_slice()
    }
}

impl Sink for MemorySink {
    ghost written = { λ s. Some s.written };

    ghost faults = { λ s. s.faults };

    ghost stalls = { λ s. s.stalls };

    fn put(&mut self, piece: &[u8]) -> Result<usize, Failed>
        // What every sink promises.
        ensures within { IfOk result (λ n. n ≤ length piece.now) }
        ensures appended { IfOk result (λ n.
            Appends (Some self.old.written) (Some self.new.written) (take n piece.now)) }
        ensures failed { OnErr result (HasRisen self.old.faults self.new.faults) }
        ensures unchanged { OnErr result (self.new.written ≡ self.old.written) }
        ensures stalled { IsStall result piece.now → HasRisen self.old.stalls self.new.stalls }
        ensures went_on { ¬ IsStall result piece.now → self.new.stalls ≡ self.old.stalls }
        ensures faults_never_fall { self.old.faults ≤ self.new.faults }
        ensures stalls_never_fall { self.old.stalls ≤ self.new.stalls }

        // Which calls fail, besides those that run out of memory, and how many bytes the others take.
        ensures fails { Contains self.old.fails (self.old.calls + 1) → IsErr result }
        ensures count { IfOk result (λ n. n ≡ min (length piece.now) self.old.piece) }

        // The rest of what the sink is after the call.
        ensures calls { self.new.calls ≡ one_more self.old.calls }
        ensures faults { self.new.faults ≡
            (if is_ok result then self.old.faults else one_more self.old.faults) }
        ensures stalls { IsStall result piece.now → self.new.stalls ≡ one_more self.old.stalls }
        ensures same { (self.new.fails ≡ self.old.fails) × (self.new.piece ≡ self.old.piece) }
    {
        let is_planned = fails_next(self.fails.as_slice(), self.calls);
        self.calls = self.calls.saturating_add(1);
        let count = piece.len().min(self.piece);
        if is_planned || self.bytes.extend_from_slice(&piece[..count]).is_err() {
            self.faults = self.faults.saturating_add(1);
            return Err(Failed);
        }
        if count == 0 && !piece.is_empty() {
            self.stalls = self.stalls.saturating_add(1);
        }
        Ok(count)
    }
}
