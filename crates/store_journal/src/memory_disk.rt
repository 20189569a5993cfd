//! A disk in memory.
ghost use Rattle.std.specs.Prelude.{◌≡◌, ◌<◌, ◌≤◌, ◌+◌, [], Some, Ok, length, take, option_map, IfOk, OnOk, OnErr, IsSome, IfSome, Contains, IsErr};
ghost use Rattle.std.proofs.Common.{inl, refl};
ghost use Rattle.weave_io.specs.Counts.{HasRisen};
ghost use Rattle.store_journal.specs.Disk.{Torn, ImagesFollow, AddsNone, IsSynced, ReadsAs, Elapses, written_at};
ghost use Rattle.store_journal.specs.Memory.{Counts, Records, RecordsWrite, bytes_in, images_in, past_images_in};
ghost use Rattle.store_journal.specs.declared.call.Call.TheVariants.{Asked, Synced};
ghost use Rattle.store_journal.specs.MemoryLaws.{now_is_since, only_of_now};

use crate::call::Call;
use crate::disk::Disk;
use crate::overwriting::{content, note, overwrite_and_note, read_from};
use std::marker::Model;
use weave_io::{Failed, fails_next};

/// Keeps bytes in memory and a record of all calls, and fails when it is told to, or when it runs out of memory.
///
/// Contracts see the bytes at first, the calls made, the numbers of the calls that fail, and how many calls there were
/// and failed.
#[derive(Drop)]
pub struct MemoryDisk {
    first: Vec<u8>,
    current: Option<Vec<u8>>,
    calls: Vec<Call>,
    fails: Vec<u64>,
    made: u64,
    faults: u64,
}

impl Model for MemoryDisk {
    ghost use Rattle.std.specs.Prelude.{◌≡◌};
    ghost use Rattle.store_journal.specs.Memory.{Holding, content_of, shape_of};

    ghost Value = { Holding };

    ghost view = { λ s. record {
      first = s.first.items;
      calls = s.calls.items;
      fails = s.fails.items;
      made = s.made;
      faults = s.faults;
    } };

    ghost invariant = { λ s. content_of s.current s.first.items ≡ (shape_of s.first.items s.calls.items).current };
}

impl MemoryDisk {
    /// A disk with these bytes, all of them synced. The calls with the numbers in `fails`, counted from 1, fail. It
    /// takes no memory.
    pub fn new(bytes: Vec<u8>, fails: Vec<u64>) -> MemoryDisk
        ensures { result ≡ record {
          first = bytes.items;
          calls = [];
          fails = fails.items;
          made = 0;
          faults = 0;
        } }
    {
        let calls = Vec::new(*bytes.allocator());
        MemoryDisk {
            first: bytes,
            current: None,
            calls,
            fails,
            made: 0,
            faults: 0,
        }
    }

    /// What a read gives.
    pub fn bytes(&self) -> &[u8]
        ensures { result.now ≡ bytes_in self.now }
    {
        content(&self.first, &self.current)
    }

    /// The record of all calls.
    pub fn calls(&self) -> &[Call]
        ensures { result.now ≡ self.now.calls }
    {
        self.calls.as_slice()
    }
}

impl Disk for MemoryDisk {
    ghost seen = { λ m. Some (bytes_in m) };

    ghost images = { images_in };

    ghost moment = { λ m. length m.calls };

    ghost images_since = { past_images_in };

    ghost faults = { λ m. m.faults };

    ghost since_now = { λ m c was. only_of_now m.first m.calls c was };

    ghost now_since = { λ m t c le image. now_is_since m.first m.calls t c le image };

    ghost reads_as_image = { λ m. inl refl };

    fn len(&mut self) -> Result<u64, Failed>
        // What every disk promises.
        ensures count { IfOk result (λ n. n ≡ length (bytes_in self.old)) }
        ensures same { OnOk result (Some (bytes_in self.new) ≡ Some (bytes_in self.old)) }
        ensures crash { AddsNone (images_in self.old) (images_in self.new) }
        ensures time { Elapses (length self.old.calls) (length self.new.calls) (past_images_in self.old)
            (past_images_in self.new) (images_in self.new) }
        ensures told { IsSome (Some (bytes_in self.old)) → IsSome (Some (bytes_in self.new)) }
        ensures failed { OnErr result (HasRisen self.old.faults self.new.faults) }
        ensures no_fault { OnOk result (self.new.faults ≡ self.old.faults) }
        ensures never_falls { self.old.faults ≤ self.new.faults }

        // Which calls fail, besides those that run out of memory, and what is in the record of them.
        ensures fails { Contains self.old.fails (self.old.made + 1) → IsErr result }
        ensures recorded { Records result (λ ok. Asked ok) self.old.calls self.new.calls }
        ensures counts { Counts result self.old self.new }
    {
        let is_planned = fails_next(self.fails.as_slice(), self.made);
        self.made = self.made.saturating_add(1);
        let is_noted = note(&mut self.calls, Call::Asked { ok: !is_planned });
        if is_planned || !is_noted {
            self.faults = self.faults.saturating_add(1);
            return Err(Failed);
        }
        Ok(content(&self.first, &self.current).len() as u64)
    }

    fn read(&mut self, at: u64, buf: &mut [u8]) -> Result<usize, Failed>
        // What every disk promises.
        ensures within { IfOk result (λ n. n ≤ length buf.new) }
        ensures long { length buf.new ≡ length buf.old }
        ensures bytes { IfOk result (λ n. ReadsAs (Some (bytes_in self.old)) at (take n buf.new)) }
        ensures end { result ≡ Ok 0 → 0 < length buf.new → length (bytes_in self.old) ≤ at }
        ensures same { OnOk result (Some (bytes_in self.new) ≡ Some (bytes_in self.old)) }
        ensures crash { AddsNone (images_in self.old) (images_in self.new) }
        ensures time { Elapses (length self.old.calls) (length self.new.calls) (past_images_in self.old)
            (past_images_in self.new) (images_in self.new) }
        ensures told { IsSome (Some (bytes_in self.old)) → IsSome (Some (bytes_in self.new)) }
        ensures failed { OnErr result (HasRisen self.old.faults self.new.faults) }
        ensures no_fault { OnOk result (self.new.faults ≡ self.old.faults) }
        ensures never_falls { self.old.faults ≤ self.new.faults }

        // Which calls fail, besides those that run out of memory, and what is in the record of them.
        ensures fails { Contains self.old.fails (self.old.made + 1) → IsErr result }
        ensures recorded { Records result (λ ok. Asked ok) self.old.calls self.new.calls }
        ensures counts { Counts result self.old self.new }
    {
        let is_planned = fails_next(self.fails.as_slice(), self.made);
        self.made = self.made.saturating_add(1);
        let is_noted = note(&mut self.calls, Call::Asked { ok: !is_planned });
        if is_planned || !is_noted {
            self.faults = self.faults.saturating_add(1);
            return Err(Failed);
        }
        Ok(read_from(content(&self.first, &self.current), at, buf))
    }

    fn write_at(&mut self, at: u64, bytes: &[u8]) -> Result<(), Failed>
        // What every disk promises.
        ensures written { OnOk result (Some (bytes_in self.new) ≡ Some (written_at at bytes.now (bytes_in self.old))) }
        ensures crash { ImagesFollow (Torn at (length bytes.now)) (images_in self.old) (images_in self.new) }
        ensures time { Elapses (length self.old.calls) (length self.new.calls) (past_images_in self.old)
            (past_images_in self.new) (images_in self.new) }
        ensures told { IsSome (Some (bytes_in self.old)) → IsSome (Some (bytes_in self.new)) }
        ensures failed { OnErr result (HasRisen self.old.faults self.new.faults) }
        ensures no_fault { OnOk result (self.new.faults ≡ self.old.faults) }
        ensures never_falls { self.old.faults ≤ self.new.faults }

        // Which calls fail, besides those that run out of memory, and what is in the record of them.
        ensures fails { Contains self.old.fails (self.old.made + 1) → IsErr result }
        ensures recorded { RecordsWrite result at bytes.now self.old.calls self.new.calls }
        ensures counts { Counts result self.old self.new }
    {
        let is_planned = fails_next(self.fails.as_slice(), self.made);
        self.made = self.made.saturating_add(1);
        let outcome = overwrite_and_note(
            &self.first,
            &mut self.current,
            &mut self.calls,
            at,
            bytes,
            is_planned,
        );
        if let Ok(true) = outcome {
            return Ok(());
        }
        self.faults = self.faults.saturating_add(1);
        Err(Failed)
    }

    fn sync(&mut self) -> Result<(), Failed>
        // What every disk promises.
        ensures synced { OnOk result (IsSynced (Some (bytes_in self.new)) (images_in self.new)) }
        ensures same { OnOk result (Some (bytes_in self.new) ≡ Some (bytes_in self.old)) }
        ensures crash { AddsNone (images_in self.old) (images_in self.new) }
        ensures time { Elapses (length self.old.calls) (length self.new.calls) (past_images_in self.old)
            (past_images_in self.new) (images_in self.new) }
        ensures told { IsSome (Some (bytes_in self.old)) → IsSome (Some (bytes_in self.new)) }
        ensures failed { OnErr result (HasRisen self.old.faults self.new.faults) }
        ensures no_fault { OnOk result (self.new.faults ≡ self.old.faults) }
        ensures never_falls { self.old.faults ≤ self.new.faults }

        // Which calls fail, besides those that run out of memory, and what is in the record of them.
        ensures fails { Contains self.old.fails (self.old.made + 1) → IsErr result }
        ensures recorded { Records result (λ ok. Synced ok) self.old.calls self.new.calls }
        ensures counts { Counts result self.old self.new }
    {
        let is_planned = fails_next(self.fails.as_slice(), self.made);
        self.made = self.made.saturating_add(1);
        let is_noted = note(&mut self.calls, Call::Synced { ok: !is_planned });
        if is_planned || !is_noted {
            self.faults = self.faults.saturating_add(1);
            return Err(Failed);
        }
        Ok(())
    }
}
