//! The parts of a vertex's versions.
ghost use Rattle.std.specs.Prelude.{◌≡◌, ◌≤◌, ◌<◌, ◌+◌, ◌-◌, ◌^◌, ◌&&◌, ◌==◌, ℕ, Bool, cond, nat_le, IsTrue, IfOk, OnOk, OnErr};
ghost use Rattle.graph_ops.specs.VertexOps.{state_after_ops, none_refused};
ghost use Rattle.version_parts.specs.Counts.{count_updates, count_in_lists, changes, size_of};
ghost use Rattle.version_parts.specs.Cuts.{cut_lists, lists_until, collected_lists};
ghost use Rattle.version_parts.specs.InOrder.{ListsInOrder};
ghost use Rattle.version_parts.specs.Placed.{AreUpTo};
ghost use Rattle.version_parts.specs.States.{no_items, state_at};

use crate::counts::count_of;
use crate::cut::Cut;
use crate::lists::Lists;
use crate::ops::{add_ops, changes};
use crate::states::state_at;
use crate::time::Time;
use graph_ops::{Op, Record};
use std::alloc::{AllocError, Global};
use std::marker::Model;

/// What a vertex's updates wrote, part by part. Contracts see its lists of items.
#[derive(Drop)]
pub struct Parts {
    count: u64,
    lists: Lists,
}

impl Model for Parts {
    ghost use Rattle.version_parts.specs.InOrder.{AreCountedInOrder};
    ghost use Rattle.version_parts.specs.declared.lists.Lists.{Lists};

    ghost Value = { Lists };

    ghost view = { λ parts. parts.lists };

    ghost invariant = { λ parts. AreCountedInOrder parts.count parts.lists };
}

impl Parts {
    /// No items. It takes no memory.
    pub fn new(alloc: Global) -> Parts
        ensures { result ≡ no_items }
    {
        Parts {
            count: 0,
            lists: Lists::new(alloc),
        }
    }

    /// How many items there are.
    pub fn count(&self) -> u64
        ensures { result ≡ count_in_lists self.now }
    {
        self.count
    }

    /// The state after an update. The one error is out of memory.
    pub fn state_at(&self, alloc: Global, update: u64) -> Result<Option<Record>, AllocError>
        ensures { IfOk result (λ state. state ≡ state_at update self.now) }
    {
        state_at(alloc, &self.lists, update)
    }

    /// Adds the items of an update, before which that many were added. Its operations pass on the state after them.
    /// The one error is out of memory, and then all states are as before.
    pub fn add_update(&mut self, alloc: Global, before: u64, ops: &[Op]) -> Result<(), AllocError>
        requires within { AreUpTo before self.old }
        requires small { before < 2 ^ 64 - 1 }
        requires passes { IsTrue (none_refused ops.now (state_at before self.old)) }
        ensures state { OnOk result (state_at (before + 1) self.new
            ≡ state_after_ops ops.now (state_at before self.old)) }
        ensures earlier { (update : ℕ) → update ≤ before → state_at update self.new ≡ state_at update self.old }
        ensures within { OnOk result (AreUpTo (before + 1) self.new) }
        ensures still_within { OnErr result (AreUpTo before self.new) }
        ensures counts { OnOk result ((test : ℕ → Bool) → count_updates test self.new
            ≡ count_updates test self.old + cond (test (before + 1)) (changes ops.now) 0) }
        ensures same_counts { OnErr result ((test : ℕ → Bool) → count_updates test self.new
            ≡ count_updates test self.old) }
    {
        let Some(count) = self.count.checked_add(changes(ops) as u64) else {
            return Err(AllocError);
        };
        match add_ops(&mut self.lists, alloc, before + 1, ops) {
            Ok(()) => {
                self.count = count;
                Ok(())
            }
            Err(error) => {
                self.lists.cut(Cut::Newer { update: before });
                Err(error)
            }
        }
    }

    /// Drops the items of updates after the first `newest` ones. It takes no memory.
    pub fn take_back(&mut self, newest: u64)
        ensures items { self.new ≡ lists_until newest self.old }
        ensures states { (update : ℕ) → update ≤ newest → state_at update self.new ≡ state_at update self.old }
        ensures within { AreUpTo newest self.new }
        ensures counts { (test : ℕ → Bool) → count_updates test self.new
            ≡ count_updates (λ update. test update && nat_le update newest) self.old }
    {
        self.cut(Cut::Newer { update: newest });
    }

    /// Drops the items that no state from the oldest update on has. It takes no memory.
    pub fn collect(&mut self, oldest: u64)
        ensures items { self.new ≡ collected_lists oldest self.old }
        ensures states { (update : ℕ) → oldest ≤ update → state_at update self.new ≡ state_at update self.old }
        ensures within { (newest : ℕ) → AreUpTo newest self.old → AreUpTo newest self.new }
        ensures counts { (test : ℕ → Bool) → count_updates test self.new ≤ count_updates test self.old }
        ensures later { (update : ℕ) → oldest < update → count_updates (λ other. other == update) self.new
            ≡ count_updates (λ other. other == update) self.old }
        ensures oldest { count_updates (λ update. nat_le update oldest) self.new ≤ size_of (state_at oldest self.old) }
    {
        self.cut(Cut::Older {
            oldest,
            since: Some(Time::beginning()),
        });
    }

    // Drops items, and counts those that are left. The items are in order.
    fn cut(&mut self, cut: Cut)
        ensures items { self.new ≡ cut_lists cut self.old }
        ensures order { ListsInOrder self.old }
    {
        self.lists.cut(cut);
        self.count = count_of(&self.lists);
    }
}
