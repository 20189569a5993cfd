//! A source over bytes in memory.
ghost use Rattle.std.specs.Prelude.{◌≡◌, ◌<◌, ◌≤◌, ◌+◌, ◌↔◌, [], Some, Ok, length, take, min, is_ok, IsErr, IfOk, OnErr, Contains, if◌then◌else◌};
ghost use Rattle.weave_io.specs.Counts.{HasRisen, one_more};
ghost use Rattle.weave_io.specs.Told.{Takes, Tells};

use crate::faults::Failed;
use crate::planned_failures::fails_next;
use crate::source::Source;
use std::marker::Model;

/// Gives bytes from memory, and fails when it is told to.
///
/// Contracts see the bytes still to come, the numbers of the calls that fail, the most bytes that a call gives, and how
/// many calls there were and failed.
#[derive(Drop)]
pub struct MemorySource {
    bytes: Vec<u8>,
    at: usize,
    fails: Vec<u64>,
    piece: usize,
    calls: u64,
    faults: u64,
}

impl Model for MemorySource {
    ghost use Rattle.std.specs.Prelude.{◌<◌, ◌≤◌, drop, length};
    ghost use Rattle.weave_io.specs.Memory.{Reading};

    ghost Value = { Reading };

    ghost view = { λ s. record {
      left = drop s.at s.bytes.items;
      fails = s.fails.items;
      piece = s.piece;
      calls = s.calls;
      faults = s.faults;
    } };

    ghost invariant = { λ s. (s.at ≤ length s.bytes.items) × (0 < s.piece) };
}

impl MemorySource {
    /// A source of these bytes, of which a call gives at most `piece`. The calls with the numbers in `fails`, counted
    /// from 1, fail. It takes no memory.
    pub fn new(bytes: Vec<u8>, fails: Vec<u64>, piece: usize) -> MemorySource
        requires { 0 < piece }
        ensures { result ≡ record {
          left = bytes.items;
          fails = fails.items;
          piece = piece;
          calls = 0;
          faults = 0;
        } }
    {
        MemorySource {
            bytes,
            at: 0,
            fails,
            piece,
            calls: 0,
            faults: 0,
        }
    }
}

impl Source for MemorySource {
    ghost left = { λ s. Some s.left };

    ghost faults = { λ s. s.faults };

    fn take(&mut self, buf: &mut [u8]) -> Result<usize, Failed>
        // What every source promises.
        ensures within { IfOk result (λ n. n ≤ length buf.new) }
        ensures taken { IfOk result (λ n. Takes (Some self.old.left) (Some self.new.left) (take n buf.new)) }
        ensures end { result ≡ Ok 0 → 0 < length buf.new → Tells (Some self.new.left) [] }
        ensures failed { OnErr result (HasRisen self.old.faults self.new.faults) }
        ensures unchanged { OnErr result (self.new.left ≡ self.old.left) }
        ensures never_falls { self.old.faults ≤ self.new.faults }

        // Which calls fail, and how many bytes the others give.
        ensures fails { IsErr result ↔ Contains self.old.fails (self.old.calls + 1) }
        ensures count { IfOk result (λ n.
            n ≡ min (length buf.old) (min self.old.piece (length self.old.left))) }

        // The rest of what the source is after the call.
        ensures calls { self.new.calls ≡ one_more self.old.calls }
        ensures faults { self.new.faults ≡
            (if is_ok result then self.old.faults else one_more self.old.faults) }
        ensures same { (self.new.fails ≡ self.old.fails) × (self.new.piece ≡ self.old.piece) }
    {
        let is_planned = fails_next(self.fails.as_slice(), self.calls);
        self.calls = self.calls.saturating_add(1);
        if is_planned {
            self.faults = self.faults.saturating_add(1);
            return Err(Failed);
        }
        let rest = &self.bytes.as_slice()[self.at..];
        let count = buf.len().min(self.piece.min(rest.len()));
        buf[..count].copy_from_slice(&rest[..count]);
        self.at += count;
        Ok(count)
    }
}
