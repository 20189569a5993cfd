//! The open vertices of a search.
ghost use Rattle.std.specs.Prelude.{◌≡◌, [], OnOk, IfSome, IfNone};
ghost use Rattle.priced_path.specs.Tables.{IsEntryPut, IsEntryTaken};

use std::alloc::{AllocError, Global};
use std::cmp::Reverse;
use std::collections::BinaryHeap;
use std::marker::Model;

/// Vertices whose edges are still to be looked at, each with the label that it had. The least label comes first; no
/// contract says so, since only the time that a search takes depends on it.
#[derive(Drop)]
pub struct Opened {
    entries: BinaryHeap<Reverse<(u128, usize)>>,
}

impl Model for Opened {
    ghost use Rattle.std.specs.Prelude.{ℕ, List, map};
    ghost use Rattle.std.specs.BinaryHeap.{heap_items};

    ghost Value = { List (ℕ × ℕ) };

    ghost view = { λ s. map (λ entry. entry.0) (heap_items s.entries) };
}

impl Opened {
    /// None. It takes no memory.
    pub fn new(alloc: Global) -> Opened
        ensures { result ≡ [] }
    {
        Opened {
            entries: BinaryHeap::new(alloc),
        }
    }

    /// Puts in a vertex with its label.
    pub fn put(&mut self, label: u128, v: usize) -> Result<(), AllocError>
        ensures { OnOk result (IsEntryPut (label, v) self.old self.new) }
    {
        self.entries.push(Reverse((label, v)))?;
        Ok(())
    }

    /// Takes out an entry.
    pub fn take(&mut self) -> Option<(u128, usize)>
        ensures some { IfSome result (λ entry. IsEntryTaken entry self.old self.new) }
        ensures none { IfNone result (self.old ≡ []) }
    {
        let Reverse(entry) = self.entries.pop()?;
        Some(entry)
    }
}
