//! A vertex's updates.
ghost use Rattle.std.specs.Prelude.{◌≡◌, ◌≢◌, ◌+◌, ◌<◌, ◌≤◌, ◌∷◌, ◌++◌, ◌⊎◌, ◌↔◌, List, [], false, length, All, Contains, IsTrue, IfOk, OnOk, OnErr};
ghost use Rattle.vector_stamp.specs.declared.clock.Stamp.{Stamp};
ghost use Rattle.vector_stamp.specs.Order.{id_of, is_at_most};
ghost use Rattle.vector_stamp.specs.Coherence.{AreCoherent};
ghost use Rattle.vector_stamp.specs.Precedence.{GivenPair};
ghost use Rattle.vector_stamp.specs.Settling.{pairs_of};
ghost use Rattle.version_parts.specs.Counts.{size_of};
ghost use Rattle.version_chain.specs.declared.version.Version.{Version};
ghost use Rattle.version_chain.specs.Chains.{ChainView, no_updates, update_count, stamps_of_versions, newest_state, with_version, with_update, IsNextUpdate, KeepsOne};
ghost use Rattle.version_chain.specs.Collection.{collected_chain};
ghost use Rattle.version_chain.specs.Updates.{IsPartCount, IsPartCountFromOldest};
ghost use Rattle.version_chain.specs.Views.{has_unordered, view_of, put_before, entries_for, ReachesBack};

use crate::collection::older_versions;
use crate::laws::collections_leave_views;
use crate::view::{View, look_back};
use graph_ops::{Op, Record};
use std::alloc::{AllocError, Global};
use std::marker::Model;
use vector_stamp::{Clock, Judge, Stamp};
use version_parts::Parts;
use version_parts::laws::items_are_placed;

/// The updates of a vertex. Contracts see how many of the oldest versions were dropped, and of each one that is kept
/// its stamp and the state after it.
#[derive(Drop)]
pub struct Chain {
    pub(crate) dropped: u64,
    pub(crate) stamps: Vec<Stamp>,
    pub(crate) parts: Parts,
}

impl Model for Chain {
    ghost use Rattle.version_chain.specs.Chains.{ChainView};
    ghost use Rattle.version_chain.specs.Keeping.{kept_from, IsKept};

    ghost Value = { ChainView };

    ghost view = { λ c. record { dropped = c.dropped; kept = kept_from c.dropped c.parts c.stamps.items } };

    ghost invariant = { λ c. IsKept c.dropped c.parts c.stamps.items };
}

impl Chain {
    /// A vertex without updates. It takes no memory.
    pub fn new(alloc: Global) -> Chain
        ensures { result ≡ no_updates }
    {
        Chain {
            dropped: 0,
            stamps: Vec::new(alloc),
            parts: Parts::new(alloc),
        }
    }

    /// How many updates were applied.
    pub fn count(&self) -> u64
        ensures { result ≡ update_count self.now }
    {
        self.dropped + self.stamps.len() as u64
    }

    /// How many versions are kept.
    pub fn kept(&self) -> usize
        ensures count { result ≡ length self.now.kept }
        ensures base { KeepsOne self.now }
    {
        self.stamps.len()
    }

    /// A copy of the state after the newest update: the operations of the next one have to pass on it. It is absent if
    /// there is no update. The one error is out of memory.
    pub fn newest(&self, alloc: Global) -> Result<Option<Record>, AllocError>
        ensures { IfOk result (λ state. state ≡ newest_state self.now.kept) }
    {
        self.parts.state_at(alloc, self.count())
    }

    /// How many parts are kept: items of the vertex's presence, its properties, edges and tags.
    /// Each operation other than `get` wrote one. If versions were dropped, there are those of the operations after the
    /// oldest version, and one for each part of its state. No state that is kept has more parts.
    pub fn parts(&self) -> u64
        ensures all { self.now.dropped ≡ 0 → IsPartCount self.now result }
        ensures some { 1 ≤ self.now.dropped → IsPartCountFromOldest self.now result }
        ensures least { All (λ version. size_of version.state ≤ result) self.now.kept }
    {
        items_are_placed();
        self.parts.count()
    }

    /// Applies an update: the operations of a transaction of this stamp, before which that many updates were applied.
    /// The one error is out of memory.
    pub fn apply_update(
        &mut self,
        alloc: Global,
        stamp: Stamp,
        before: u64,
        ops: &[Op],
    ) -> Result<(), AllocError>
        requires { IsNextUpdate self.old before ops.now }
        ensures applied { OnOk result (self.new ≡ with_update stamp ops.now self.old) }
        ensures refused { OnErr result (self.new ≡ self.old) }
    {
        items_are_placed();
        self.stamps.reserve(1)?;
        self.parts.add_update(alloc, before, ops)?;
        self.stamps.push_reserved(stamp);
        Ok(())
    }

    /// Takes the newest update back: the chain is as before it. It takes no memory.
    pub fn take_back(&mut self)
        requires kept { 1 ≤ length self.old.kept }
        requires base { 1 ≤ self.old.dropped → 2 ≤ length self.old.kept }
        ensures { (newest : Version) (chain : ChainView) → self.old ≡ with_version newest chain → self.new ≡ chain }
    {
        let _ = self.stamps.pop();
        let newest = self.stamps.len() as u64 + self.dropped;
        self.parts.take_back(newest);
    }

    /// Drops the versions that are older than the newest one whose clock is before the bound.
    /// If no clock is before it, all stay.
    /// No view changes for a program whose clock the bound is at most. It takes no memory.
    pub fn collect(&mut self, bound: &Clock)
        ensures kept { self.new ≡ collected_chain bound.now self.old }
        ensures count { update_count self.new ≡ update_count self.old }
        ensures views { (pairs : List GivenPair) (program : Stamp) → IsTrue (is_at_most bound.now program.clock)
            → view_of pairs program self.new ≡ view_of pairs program self.old }
        ensures base { (program : Stamp) → IsTrue (is_at_most bound.now program.clock)
            → ReachesBack program self.old ⊎ (self.old.dropped < self.new.dropped) → ReachesBack program self.new }
    {
        collections_leave_views();
        self.drop_older(bound);
    }

    // Drops those versions.
    fn drop_older(&mut self, bound: &Clock)
        ensures { self.new ≡ collected_chain bound.now self.old }
    {
        let older = older_versions(self.stamps.as_slice(), bound);
        if older == 0 {
            return;
        }
        self.stamps.drain(..older);
        self.dropped += older as u64;
        self.parts.collect(self.dropped + 1);
    }

    /// Whether what is kept reaches back far enough for a program of this stamp.
    /// If versions were dropped, the oldest one that is kept has to be before it.
    pub fn reaches_back(&self, stamp: &Stamp) -> bool
        ensures { IsTrue result ↔ ReachesBack stamp.now self.now }
    {
        if self.dropped == 0 {
            return true;
        }
        let Some(oldest) = self.stamps.first() else {
            return false;
        };
        oldest.is_before(stamp)
    }

    /// What a program sees. From the newest version: one whose stamp is after the program's is skipped, one whose stamp
    /// is before it is seen, and for an unordered one the judge is asked to put it before the program: it is skipped if
    /// the judge refuses, and seen if not.
    /// The one error is out of memory. It takes the time of the versions that it skips, and copies no record but the
    /// one that it answers.
    pub fn view_at<J: Judge>(
        &self,
        alloc: Global,
        author: u32,
        stamp: Stamp,
        judge: &mut J,
    ) -> Result<View, AllocError>
        requires other_ids { All (λ update. id_of update ≢ id_of stamp) (stamps_of_versions self.now.kept) }
        requires coherent { AreCoherent (stamp ∷ stamps_of_versions self.now.kept ++ J.known judge.old) }
        requires base { ReachesBack stamp self.now }
        ensures view { IfOk result (λ view. view ≡ view_of (J.pairs judge.old) stamp self.now) }
        ensures base { IfOk result (λ view. 1 ≤ self.now.dropped → self.now.dropped < view.updates) }
        ensures pairs { OnOk result (J.pairs judge.new
            ≡ J.pairs judge.old ++ pairs_of (put_before (J.pairs judge.old) stamp self.now) stamp) }
        ensures no_pair { OnErr result (J.pairs judge.new ≡ J.pairs judge.old) }
        ensures known { (event : Stamp) → Contains (J.known judge.new) event
            → Contains (J.known judge.old) event ⊎ Contains (stamp ∷ stamps_of_versions self.now.kept) event }
        ensures stay_known { (event : Stamp) → Contains (J.known judge.old) event → Contains (J.known judge.new) event }
        ensures logged { OnOk result (IsTrue J.keeps_log
            → J.log_of judge.new ≡ J.log_of judge.old ++ entries_for (J.pairs judge.old) author stamp self.now) }
        ensures not_logged { OnErr result (IsTrue J.keeps_log → J.log_of judge.new ≡ J.log_of judge.old) }
        ensures not_asked { has_unordered stamp (stamps_of_versions self.now.kept) ≡ false → judge.new ≡ judge.old }
    {
        look_back(
            alloc,
            author,
            stamp,
            judge,
            self.dropped,
            self.stamps.as_slice(),
            &self.parts,
        )
    }
}
