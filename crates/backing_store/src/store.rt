//! The store with its log.
ghost use Rattle.std.specs.Prelude.{◌≡◌, ◌≢◌, ◌<◌, ◌≤◌, ◌+◌, ◌^◌, ◌∷◌, ◌++◌, ◌⊎◌, [], ℕ, All, Contains, IsTrue, IfOk, OnOk, OnErr, vec_len, vec_capacity, Some, None, cond, nat_eq, false, length, option_copied};
ghost use Rattle.std.specs.Option.{option_map, option_or};
ghost use Rattle.std.specs.Map.{lookup};
ghost use Rattle.std.specs.HashMap.{spare};
ghost use Rattle.vector_stamp.specs.declared.clock.Stamp.{Stamp};
ghost use Rattle.vector_stamp.specs.Order.{id_of};
ghost use Rattle.vector_stamp.specs.Coherence.{AreCoherent};
ghost use Rattle.weave_data.specs.declared.name.Name.{Name};
ghost use Rattle.weave_entries.specs.declared.store_log.StoreEntry.{StoreEntry};
ghost use Rattle.weave_entries.specs.declared.verdict.Counted.{Counted};
ghost use Rattle.backing_store.specs.Commits.{stamps_judged, stamps_kept, asked_at, is_judge_asked, verdict_at, judged_entry, pairs_added, entries_added};
ghost use Rattle.backing_store.specs.Keeping.{held_at, held_after};
ghost use Rattle.backing_store.specs.Trying.{counts_in, commits_by};
ghost use Rattle.weave_entries.specs.StoreReplay.{Judgement, judged_by, commits_of, judgement_of, graph_committed};
ghost use Rattle.weave_entries.specs.StoreRule.{IsStoreLog, ops_bound};

use crate::asked::asked_at;
use crate::deciding::{Decided, judge_tx};
use crate::lasts::{Lasts, put_lasts};
use graph_ops::{Graph, Op, Record, named};
use indexmap::IndexMap;
use std::alloc::{AllocError, Global};
use std::collections::HashMap;
use std::marker::Model;
use vector_stamp::laws::parts_and_unions_are_coherent;
use vector_stamp::{Judge, Stamp};
use weave_data::{Items, Name};
use weave_entries::{StoreDeed, StoreEntry, Verdict};

/// The backing store. Contracts see its log.
#[derive(Drop)]
pub struct Store {
    graph: Graph,
    lasts: Lasts,
    // How many commits were made.
    made: u64,
    // The place in the log of each request's verdict.
    places: HashMap<u32, usize>,
    log: Vec<StoreEntry>,
}

impl Model for Store {
    ghost use Rattle.std.specs.Prelude.{List};
    ghost use Rattle.weave_entries.specs.declared.store_log.StoreEntry.{StoreEntry};
    ghost use Rattle.graph_ops.specs.Graphs.{plain_of};
    ghost use Rattle.backing_store.specs.Keeping.{IsStoreReplay};

    ghost Value = { List StoreEntry };

    ghost view = { λ s. s.log.items };

    ghost invariant = { λ s. IsStoreReplay (plain_of s.graph) s.lasts.entries s.made s.places.entries s.log.items };
}

impl Store {
    /// A store that has judged nothing. It takes no memory.
    pub fn new(alloc: Global) -> Store
        ensures { result ≡ [] }
    {
        Store {
            graph: Graph::new(alloc),
            lasts: IndexMap::new(alloc),
            made: 0,
            places: HashMap::new(alloc),
            log: Vec::new(alloc),
        }
    }

    /// Judges a transaction by the rule of the store, over any judge of events:
    /// validation by the stamp of the last update (Weaver, PVLDB 9(11) 2016).
    ///
    /// There is a conflict at the first named vertex whose last commit the stamp is before.
    /// Otherwise the judge is asked once, to put the last commits that are unordered with the stamp before it,
    /// and there is a conflict at the first one that the stamp precedes by the judge's pairs.
    /// Otherwise the first operation that is refused refuses the transaction, or it commits.
    /// The judge keeps the pairs of a commit alone.
    ///
    /// It costs its own operations and look-ups, a compare of each named vertex with those named before it, and what
    /// the judge takes.
    /// After out of memory store and judge are as before.
    pub fn commit<J: Judge>(
        &mut self,
        alloc: Global,
        author: u32,
        request: u32,
        stamp: Stamp,
        ops: &[Op],
        judge: &mut J,
    ) -> Result<Verdict, AllocError>
        requires few { length ops.now < ops_bound }
        requires new { All (λ (judged : Stamp). id_of judged ≢ id_of stamp) (stamps_judged self.old) }
        requires coherent { AreCoherent (stamp ∷ stamps_kept (commits_of self.old) ++ J.known judge.old) }

        ensures verdict { IfOk result (λ verdict. verdict ≡ verdict_at (J.pairs judge.old) self.old stamp ops.now) }
        ensures entry { IfOk result (λ verdict. self.new
            ≡ self.old ++ judged_entry author request stamp ops.now self.old verdict ∷ []) }
        ensures pairs { IfOk result (λ verdict. J.pairs judge.new ≡ J.pairs judge.old
            ++ pairs_added verdict (J.pairs judge.old) (asked_at self.old stamp ops.now) stamp) }
        ensures logged { IfOk result (λ verdict. IsTrue J.keeps_log → J.log_of judge.new ≡ J.log_of judge.old
            ++ entries_added verdict author (J.pairs judge.old) (asked_at self.old stamp ops.now) stamp) }

        // The judge learns of no other stamps than it is asked of, and forgets none.
        ensures known { (one : Stamp) → Contains (J.known judge.new) one
            → Contains (J.known judge.old) one ⊎ Contains (stamp ∷ asked_at self.old stamp ops.now) one }
        ensures stay_known { (one : Stamp) → Contains (J.known judge.old) one → Contains (J.known judge.new) one }
        ensures not_asked { is_judge_asked self.old stamp ops.now ≡ false → judge.new ≡ judge.old }

        ensures store { OnErr result (self.new ≡ self.old) }
        ensures judge { OnErr result (judge.new ≡ judge.old) }
    {
        parts_and_unions_are_coherent();
        let names = named(alloc, ops)?;
        make_room(
            &mut self.lasts,
            &mut self.places,
            &mut self.log,
            names.len(),
        )?;
        let asked = asked_at(alloc, &self.lasts, names.as_slice(), &stamp)?;
        let judged = Items::from_vec(Vec::from_slice(alloc, ops)?);
        let decided = judge_tx(
            alloc,
            author,
            judge,
            &self.lasts,
            &mut self.graph,
            self.made,
            names.as_slice(),
            &asked,
            stamp,
            ops,
        )?;
        let Decided { logged, answer } = decided;
        put_commit(&mut self.lasts, &mut self.made, request, stamp, &logged);
        note_place(&mut self.places, request, self.log.len());
        let deed = StoreDeed::Judged {
            request,
            stamp,
            ops: judged,
            asked: asked.vertices,
            verdict: logged,
        };
        self.log.push_reserved(StoreEntry { author, deed });
        Ok(answer)
    }

    /// The record of a vertex after all commits, or `None` if it is absent.
    pub fn state(&self, v: Name) -> Option<&Record>
        ensures { option_copied result ≡ graph_committed (commits_of self.now) v }
    {
        self.graph.find(v)
    }

    /// How many commits were made.
    pub fn commits(&self) -> u64
        ensures count { result ≡ length (commits_of self.now) }
        ensures small { result < 2 ^ 63 }
    {
        self.made
    }

    /// What was judged of a request, or `None`. It takes no memory.
    pub fn judged(&self, request: u32) -> Option<&StoreEntry>
        ensures { option_map (λ (entry : StoreEntry). judged_by entry.author entry.deed) (option_copied result)
            ≡ judgement_of request self.now }
    {
        let Some(place) = self.places.get(&request) else {
            return None;
        };
        Some(&self.log[*place])
    }

    /// The verdict of a request, or `None` if it has none. It takes no memory.
    pub fn verdict_of(&self, request: u32) -> Option<&Verdict>
        ensures { option_copied result
            ≡ option_map (λ (judged : Judgement). judged.verdict) (judgement_of request self.now) }
    {
        let Some(entry) = self.judged(request) else {
            return None;
        };
        Some(verdict_in(entry))
    }

    /// What was judged, in order.
    pub fn log(&self) -> &[StoreEntry]
        ensures log { result.now ≡ self.now }
        ensures small { length self.now < 2 ^ 63 }
        ensures right { IsStoreLog self.now }
    {
        self.log.as_slice()
    }
}

fn verdict_in(entry: &StoreEntry) -> &Verdict
    ensures { result.now ≡ (judged_by entry.now.author entry.now.deed).verdict }
{
    let StoreDeed::Judged { verdict, .. } = &entry.deed;
    verdict
}

// Takes the room for one more entry, of a transaction that names this many vertices.
fn make_room(
    lasts: &mut Lasts,
    places: &mut HashMap<u32, usize>,
    log: &mut Vec<StoreEntry>,
    vertices: usize,
) -> Result<(), AllocError>
    ensures lasts { (v : Name) → held_at lasts.new.entries v ≡ held_at lasts.old.entries v }
    ensures places { (one : ℕ) → lookup (nat_eq one) places.new.entries ≡ lookup (nat_eq one) places.old.entries }
    ensures log { log.new.items ≡ log.old.items }
    ensures room_in_lasts { OnOk result (vertices ≤ spare lasts.new) }
    ensures room_in_places { OnOk result (1 ≤ spare places.new) }
    ensures room_in_log { OnOk result (vec_len log.new < vec_capacity log.new) }
{
    lasts.reserve(vertices)?;
    places.reserve(1)?;
    log.reserve(1)?;
    Ok(())
}

// Notes a commit at each vertex that it names. There is room for them. It takes no memory.
fn put_commit(lasts: &mut Lasts, made: &mut u64, request: u32, stamp: Stamp, verdict: &Verdict)
    requires room { length (counts_in verdict.now) ≤ spare lasts.old }
    requires few { All (λ (counted : Counted). counted.before < 2 ^ 63) (counts_in verdict.now) }
    requires number { made.old < 2 ^ 63 }
    ensures lasts { (v : Name) → held_at lasts.new.entries v
        ≡ held_after request stamp (counts_in verdict.now) v (held_at lasts.old.entries v) }
    ensures made { made.new ≡ made.old + commits_by verdict.now }
{
    if let Verdict::Committed { counts, .. } = verdict {
        put_lasts(lasts, counts.as_slice(), request, stamp);
        *made += 1;
    }
}

// Notes the place of a request's first entry. There is room for it. It takes no memory.
fn note_place(places: &mut HashMap<u32, usize>, request: u32, place: usize)
    requires { 1 ≤ spare places.old }
    ensures { (one : ℕ) → lookup (nat_eq one) places.new.entries
        ≡ option_or (lookup (nat_eq one) places.old.entries) (cond (nat_eq request one) (Some place) None) }
{
    if !places.contains_key(&request) {
        let _ = places.insert(request, place);
    }
}
