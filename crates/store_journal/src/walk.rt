//! The walk over the bytes of a journal, from its front: the whole records, and the gate byte after them.
ghost use Rattle.std.specs.Prelude.{◌≡◌, ◌≤◌, ◌<◌, ◌+◌, ◌^◌, List, length, option_map, IfOk, IfSome, IsTrue, is_ok, if◌then◌else◌};
ghost use Rattle.weave_data.specs.Limits.{most_ops};
ghost use Rattle.graph_ops.specs.Graphs.{plain_of};
ghost use Rattle.graph_ops.specs.PlainGraph.{graph_left, transaction};
ghost use Rattle.store_journal.specs.Commits.{commit_of, has_right_stamp};
ghost use Rattle.store_journal.specs.Journal.{file_commits, gate_of};
ghost use Rattle.store_journal.specs.Walked.{HasPassed, HasStepped, TakesCommit, TakesPayload, payload_in};
ghost use Rattle.store_journal.specs.declared.kept_commit.Commit.{Commit};

use crate::kept_commit::Commit;
use crate::laws::payloads_say_commits;
use crate::payload::commit_said;
use graph_ops::{Graph, Op, TxFault};
use std::alloc::{AllocError, Global};
use vector_stamp::{Clock, Relation, Stamp};

/// What is known of the records that were passed.
#[derive(Drop)]
pub(crate) struct Walked {
    /// The place of the gate byte after them.
    pub(crate) gate: usize,
    /// How many they are.
    pub(crate) number: u64,
    /// The clock of the last one.
    pub(crate) clock: Clock,
    /// The graph that they leave.
    pub(crate) graph: Graph,
}

/// Walks over the records of a file, up to the first gate byte that isn't 1, or has no whole record after it.
pub(crate) fn walk(alloc: Global, file: &[u8]) -> Result<Walked, AllocError>
    ensures gate { IfOk result (λ walked. walked.gate ≡ gate_of commit_of file.now) }
    ensures commits { IfOk result (λ walked. HasPassed walked (file_commits commit_of file.now)) }
    ensures few { IfOk result (λ walked. walked.number ≤ walked.gate) }
    ensures within { IfOk result (λ walked. walked.gate ≤ length file.now) }
{
    let mut walked = Walked {
        gate: 0,
        number: 0,
        clock: Clock::start(),
        graph: Graph::new(alloc),
    };
    'records: while pass_record(alloc, file, &mut walked)? {}
    Ok(walked)
}

// Passes over the record after the gate byte, if it is whole, and answers whether it was.
fn pass_record(alloc: Global, file: &[u8], walked: &mut Walked) -> Result<bool, AllocError>
    requires within { walked.old.gate ≤ length file.now }
    requires few { walked.old.number ≤ walked.old.gate }
    ensures step { IfOk result (λ more. (earlier : List Commit) → HasPassed walked.old earlier
        → HasStepped file.now walked.old walked.new more earlier) }
    ensures within { IfOk result (λ more. walked.new.gate ≤ length file.now) }
    ensures few { IfOk result (λ more. walked.new.number ≤ walked.new.gate) }
    ensures onward { IfOk result (λ more. IsTrue more → walked.old.gate < walked.new.gate) }
{
    let gate = walked.gate;
    if gate >= file.len() || file[gate] != 1 {
        return Ok(false);
    }
    let Some(payload) = payload_in(&file[gate + 1..]) else {
        return Ok(false);
    };
    if !take_payload(alloc, walked, payload)? {
        return Ok(false);
    }
    walked.gate = gate + 5 + payload.len();
    Ok(true)
}

// The payload of a record, if it is in the file with one byte after it.
fn payload_in(bytes: &[u8]) -> Option<&[u8]>
    ensures payload { option_map (λ payload. payload.now) result ≡ payload_in bytes.now }
    ensures within { IfSome result (λ payload. length payload.now + 4 < length bytes.now) }
{
    if bytes.len() < 4 {
        return None;
    }
    let size = u32::from_be_bytes([bytes[0], bytes[1], bytes[2], bytes[3]]) as usize;
    let rest = &bytes[4..];
    if size < rest.len() {
        return Some(&rest[..size]);
    }
    None
}

// Takes in the commit of a payload, if it says one that may follow, and answers whether it does.
fn take_payload(alloc: Global, walked: &mut Walked, payload: &[u8]) -> Result<bool, AllocError>
    requires { walked.old.number < 2 ^ 63 }
    ensures commit { IfOk result (λ more. (earlier : List Commit) → HasPassed walked.old earlier
        → TakesPayload payload.now walked.new more earlier) }
    ensures gate { walked.new.gate ≡ walked.old.gate }
    ensures number { IfOk result (λ more. walked.new.number
        ≤ (if more then walked.old.number + 1 else walked.old.number)) }
{
    payloads_say_commits();
    match commit_said(alloc, payload)? {
        Some(commit) => take_commit(alloc, walked, &commit),
        None => Ok(false),
    }
}

// Takes in a commit, if it may follow, and answers whether it does.
fn take_commit(alloc: Global, walked: &mut Walked, commit: &Commit) -> Result<bool, AllocError>
    requires few { length commit.now.ops ≤ most_ops }
    requires room { walked.old.number < 2 ^ 63 }
    ensures commit { IfOk result (λ may. (earlier : List Commit) → HasPassed walked.old earlier
        → TakesCommit commit.now walked.new may earlier) }
    ensures gate { walked.new.gate ≡ walked.old.gate }
    ensures number { IfOk result (λ may. walked.new.number
        ≤ (if may then walked.old.number + 1 else walked.old.number)) }
{
    if !has_right_stamp(&walked.clock, walked.number, &commit.stamp) {
        return Ok(false);
    }
    if !passes(alloc, &mut walked.graph, commit.ops.as_slice())? {
        return Ok(false);
    }
    walked.clock = commit.stamp.clock;
    walked.number += 1;
    Ok(true)
}

// The stamp is after that of the record before, its epoch is 1 up to its number, and its own count is at least 1.
fn has_right_stamp(last: &Clock, number: u64, stamp: &Stamp) -> bool
    requires { number < 2 ^ 63 }
    ensures { result ≡ has_right_stamp last.now number stamp.now }
{
    last.compare(&stamp.clock) == Relation::Before
        && 1 <= stamp.clock.epoch
        && stamp.clock.epoch <= number + 1
        && 1 <= stamp.own_count()
}

// Runs operations that pass, and answers whether they do.
fn passes(alloc: Global, graph: &mut Graph, ops: &[Op]) -> Result<bool, AllocError>
    requires { length ops.now ≤ most_ops }
    ensures passed { IfOk result (λ passed. passed ≡ is_ok (transaction ops.now (plain_of graph.old))) }
    ensures graph { IfOk result (λ passed. plain_of graph.new
        ≡ graph_left (plain_of graph.old) (transaction ops.now (plain_of graph.old))) }
{
    match graph.run_tx(alloc, ops) {
        Ok(_) => Ok(true),
        Err(TxFault::Refused { .. }) => Ok(false),
        Err(TxFault::Memory) => Err(AllocError),
    }
}
