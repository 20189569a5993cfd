//! What a program sees.
ghost use Rattle.std.specs.Prelude.{◌≡◌, ◌≢◌, ◌<◌, ◌+◌, ◌^◌, length, ◌∷◌, ◌++◌, ◌⊎◌, [], false, not, All, Contains, IsTrue, Some, None, IfOk, OnOk, OnErr, if◌then◌else◌};
ghost use Rattle.vector_stamp.specs.declared.clock.Stamp.{Stamp};
ghost use Rattle.vector_stamp.specs.Order.{id_of, unordered};
ghost use Rattle.vector_stamp.specs.Coherence.{AreCoherent};
ghost use Rattle.vector_stamp.specs.Precedence.{precedes};
ghost use Rattle.vector_stamp.specs.Seeing.{is_seen};
ghost use Rattle.vector_stamp.specs.Settling.{additions_from, places_of, pairs_of, entries_of_call};
ghost use Rattle.version_chain.specs.Chains.{stamps_of_versions};
ghost use Rattle.version_chain.specs.Keeping.{kept_from};
ghost use Rattle.version_chain.specs.Looks.{read_of};
ghost use Rattle.version_parts.specs.States.{state_at};
ghost use Rattle.version_chain.specs.Views.{has_unordered, view_of, put_before, entries_for};

use graph_ops::Record;
use std::alloc::{AllocError, Global};
use vector_stamp::laws::{parts_and_unions_are_coherent, precedence_is_decided};
use vector_stamp::{Judge, Refusal, Relation, Stamp};
use version_parts::Parts;
use weave_data::Copied;

/// What a program sees of a vertex.
#[derive(Drop)]
pub struct View {
    /// The state that it reads.
    pub state: Option<Record>,
    /// It is the state after that many of the vertex's updates.
    pub updates: u64,
    /// Whether the judge added a pair, which puts the last of these updates before the program.
    pub settled: bool,
}

impl Copied for View {
    fn copy(&self, alloc: Global) -> Result<Self, AllocError> {
        Ok(View {
            state: self.state.copy(alloc)?,
            updates: self.updates,
            settled: self.settled,
        })
    }
}

/// A version that a program sees.
#[derive(Drop)]
pub(crate) struct Seen {
    pub state: Option<Record>,
    pub settled: bool,
}

/// Looks at one version, of the update of this number: the state if the program sees it, and `None` if it is skipped.
/// An unordered one is seen unless the judge refuses to put it before the program.
pub(crate) fn look<J: Judge>(
    alloc: Global,
    author: u32,
    program: Stamp,
    judge: &mut J,
    update: Stamp,
    parts: &Parts,
    number: u64,
) -> Result<Option<Seen>, AllocError>
    requires other_id { id_of update ≢ id_of program }
    requires coherent { AreCoherent (program ∷ update ∷ J.known judge.old) }
    ensures seen { IfOk result (λ seen. seen ≡ (if is_seen (J.pairs judge.old) program update
        then Some (record {
          state = state_at number parts.now;
          settled = not (precedes (J.pairs judge.old) update program);
        })
        else None)) }
    ensures pairs { IfOk result (λ seen. J.pairs judge.new ≡ J.pairs judge.old
        ++ pairs_of (additions_from 0 (J.pairs judge.old) (read_of seen update) program) program) }
    ensures no_pair { OnErr result (J.pairs judge.new ≡ J.pairs judge.old) }
    ensures known { (stamp : Stamp) → Contains (J.known judge.new) stamp
        → Contains (J.known judge.old) stamp ⊎ Contains (program ∷ update ∷ []) stamp }
    ensures stay_known { (stamp : Stamp) → Contains (J.known judge.old) stamp → Contains (J.known judge.new) stamp }
    ensures logged { IfOk result (λ seen. IsTrue J.keeps_log → J.log_of judge.new ≡ J.log_of judge.old
        ++ entries_of_call author (read_of seen update) program
        (places_of (additions_from 0 (J.pairs judge.old) (read_of seen update) program))) }
    ensures not_logged { OnErr result (IsTrue J.keeps_log → J.log_of judge.new ≡ J.log_of judge.old) }
    ensures not_asked { unordered update program ≡ false → judge.new ≡ judge.old }
{
    precedence_is_decided();
    match update.clock.compare(&program.clock) {
        Relation::After => Ok(None),
        Relation::Before => Ok(Some(Seen {
            state: parts.state_at(alloc, number)?,
            settled: false,
        })),
        Relation::Unordered => ask(alloc, author, program, judge, update, parts, number),
    }
}

// Asks the judge to put an unordered version before the program. The state is copied once the judge doesn't refuse, and
// before it adds the pair: nothing can fail after that.
fn ask<J: Judge>(
    alloc: Global,
    author: u32,
    program: Stamp,
    judge: &mut J,
    update: Stamp,
    parts: &Parts,
    number: u64,
) -> Result<Option<Seen>, AllocError>
    requires other_id { id_of update ≢ id_of program }
    requires coherent { AreCoherent (program ∷ update ∷ J.known judge.old) }
    ensures seen { IfOk result (λ seen. seen ≡ (if not (precedes (J.pairs judge.old) program update)
        then Some (record {
          state = state_at number parts.now;
          settled = not (precedes (J.pairs judge.old) update program);
        })
        else None)) }
    ensures pairs { IfOk result (λ seen. J.pairs judge.new ≡ J.pairs judge.old
        ++ pairs_of (additions_from 0 (J.pairs judge.old) (read_of seen update) program) program) }
    ensures no_pair { OnErr result (J.pairs judge.new ≡ J.pairs judge.old) }
    ensures known { (stamp : Stamp) → Contains (J.known judge.new) stamp
        → Contains (J.known judge.old) stamp ⊎ Contains (program ∷ update ∷ []) stamp }
    ensures stay_known { (stamp : Stamp) → Contains (J.known judge.old) stamp → Contains (J.known judge.new) stamp }
    ensures logged { IfOk result (λ seen. IsTrue J.keeps_log → J.log_of judge.new ≡ J.log_of judge.old
        ++ entries_of_call author (read_of seen update) program
        (places_of (additions_from 0 (J.pairs judge.old) (read_of seen update) program))) }
    ensures not_logged { OnErr result (IsTrue J.keeps_log → J.log_of judge.new ≡ J.log_of judge.old) }
{
    parts_and_unions_are_coherent();
    if is_refused(alloc, author, program, judge, update)? {
        return Ok(None);
    }
    let state = parts.state_at(alloc, number)?;
    let earlier = [update];
    match judge.settle(alloc, author, &earlier, program, true) {
        Ok(put) => Ok(Some(Seen {
            state,
            settled: !put.places.as_slice().is_empty(),
        })),
        Err(Refusal::Precedes { .. }) => Ok(None),
        Err(Refusal::Memory) => Err(AllocError),
    }
}

// Whether the judge refuses to put an unordered version before the program. It adds no pair.
fn is_refused<J: Judge>(
    alloc: Global,
    author: u32,
    program: Stamp,
    judge: &mut J,
    update: Stamp,
) -> Result<bool, AllocError>
    requires other_id { id_of update ≢ id_of program }
    requires coherent { AreCoherent (program ∷ update ∷ J.known judge.old) }
    ensures refused { IfOk result (λ refused. refused ≡ precedes (J.pairs judge.old) program update) }
    ensures pairs { J.pairs judge.new ≡ J.pairs judge.old }
    ensures known { (stamp : Stamp) → Contains (J.known judge.new) stamp
        → Contains (J.known judge.old) stamp ⊎ Contains (program ∷ update ∷ []) stamp }
    ensures stay_known { (stamp : Stamp) → Contains (J.known judge.old) stamp → Contains (J.known judge.new) stamp }
    ensures not_logged { IsTrue J.keeps_log → J.log_of judge.new ≡ J.log_of judge.old }
{
    let earlier = [update];
    match judge.settle(alloc, author, &earlier, program, false) {
        Ok(_) => Ok(false),
        Err(Refusal::Precedes { .. }) => Ok(true),
        Err(Refusal::Memory) => Err(AllocError),
    }
}

/// Looks back from the newest update to the first one that the program sees. `dropped` versions are gone before those
/// given.
pub(crate) fn look_back<J: Judge>(
    alloc: Global,
    author: u32,
    program: Stamp,
    judge: &mut J,
    dropped: u64,
    stamps: &[Stamp],
    parts: &Parts,
) -> Result<View, AllocError>
    requires other_ids { All (λ update. id_of update ≢ id_of program)
        (stamps_of_versions (kept_from dropped parts.now stamps.now)) }
    requires coherent { AreCoherent (program ∷ stamps_of_versions (kept_from dropped parts.now stamps.now)
        ++ J.known judge.old) }
    requires small { dropped + length stamps.now < 2 ^ 64 }
    ensures view { IfOk result (λ view. view
        ≡ view_of (J.pairs judge.old) program
        (record { dropped = dropped; kept = kept_from dropped parts.now stamps.now })) }
    ensures pairs { OnOk result (J.pairs judge.new ≡ J.pairs judge.old
        ++ pairs_of (put_before (J.pairs judge.old) program
        (record { dropped = dropped; kept = kept_from dropped parts.now stamps.now })) program) }
    ensures no_pair { OnErr result (J.pairs judge.new ≡ J.pairs judge.old) }
    ensures known { (stamp : Stamp) → Contains (J.known judge.new) stamp
        → Contains (J.known judge.old) stamp
        ⊎ Contains (program ∷ stamps_of_versions (kept_from dropped parts.now stamps.now)) stamp }
    ensures stay_known { (stamp : Stamp) → Contains (J.known judge.old) stamp → Contains (J.known judge.new) stamp }
    ensures logged { OnOk result (IsTrue J.keeps_log → J.log_of judge.new ≡ J.log_of judge.old
        ++ entries_for (J.pairs judge.old) author program
        (record { dropped = dropped; kept = kept_from dropped parts.now stamps.now })) }
    ensures not_logged { OnErr result (IsTrue J.keeps_log → J.log_of judge.new ≡ J.log_of judge.old) }
    ensures not_asked { has_unordered program (stamps_of_versions (kept_from dropped parts.now stamps.now)) ≡ false
        → judge.new ≡ judge.old }
{
    parts_and_unions_are_coherent();
    let mut rest = stamps;
    while let Some((newest, older)) = rest.split_last() {
        let number = dropped + rest.len() as u64;
        if let Some(seen) = look(alloc, author, program, judge, *newest, parts, number)? {
            return Ok(View {
                state: seen.state,
                updates: number,
                settled: seen.settled,
            });
        }
        rest = older;
    }
    Ok(View {
        state: None,
        updates: dropped,
        settled: false,
    })
}
