//! Numbers, and their sum.
ghost use Rattle.std.specs.Prelude.{◌≡◌, ◌+◌, ◌^◌, ◌≤◌, ◌↔◌, [], ◌∷◌, ◌++◌, OnOk, OnErr, Err};
ghost use Rattle.chronicle_keeper.specs.Totals.{total_of};

use chronicle::Machine;
use std::alloc::Global;
use std::marker::Model;

/// Why a number was not added.
#[derive(Debug, Clone, Copy, PartialEq, Eq)]
pub enum Refused {
    /// The sum would be 2^64 or more.
    TooLarge,
    /// Out of memory.
    Memory,
}

/// Numbers with their authors, and the sum of the numbers. Contracts see it as its log.
#[derive(Drop)]
pub struct Tally {
    entries: Vec<(u32, u64)>,
    total: u64,
}

impl Model for Tally {
    ghost use Rattle.std.specs.Prelude.{◌≡◌, ℕ, List};
    ghost use Rattle.chronicle_keeper.specs.Totals.{total_of};

    ghost Value = { List (ℕ × ℕ) };

    ghost view = { λ t. t.entries.items };

    ghost invariant = { λ t. t.total ≡ total_of t.entries.items };
}

impl Machine for Tally {
    type Entry = u64;

    ghost frame = { λ _. [] };

    ghost log = { λ t. t };
}

impl Tally {
    pub fn new(alloc: Global) -> Tally
        ensures { result ≡ [] }
    {
        Tally {
            entries: Vec::new(alloc),
            total: 0,
        }
    }

    pub fn total(&self) -> u64
        ensures { result ≡ total_of self.now }
    {
        self.total
    }

    pub fn entries(&self) -> &[(u32, u64)]
        ensures { result.now ≡ self.now }
    {
        self.entries.as_slice()
    }

    pub fn add(&mut self, author: u32, value: u64) -> Result<(), Refused>
        ensures ok { OnOk result (self.new ≡ self.old ++ (author, value) ∷ []) }
        ensures too_large { (result ≡ Err Refused.TooLarge) ↔ (2 ^ 64 ≤ total_of self.old + value) }
        ensures err { OnErr result (self.new ≡ self.old) }
    {
        let Some(total) = self.total.checked_add(value) else {
            return Err(Refused::TooLarge);
        };
        if self.entries.push((author, value)).is_err() {
            return Err(Refused::Memory);
        }
        self.total = total;
        Ok(())
    }
}
