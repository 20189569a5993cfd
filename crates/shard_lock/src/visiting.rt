//! A visit under the oracle's lock.
ghost use Rattle.std.specs.Prelude.{◌≡◌, ◌≢◌, ◌≤◌, [], ◌∷◌, ◌++◌, List, length, map, false, take, All, Contains, None, IsSome, IfErr, IfOk, OnErr, OnOk};
ghost use Rattle.weave_data.specs.declared.name.Name.{Name};
ghost use Rattle.weave_data.specs.Limits.{most_gates};
ghost use Rattle.vector_stamp.specs.declared.clock.Stamp.{Stamp};
ghost use Rattle.vector_stamp.specs.Order.{id_of};
ghost use Rattle.weave_entries.specs.declared.gate_log.GateDeed.{GateDeed};
ghost use Rattle.weave_entries.specs.declared.oracle_log.OracleEntry.{OracleEntry};
ghost use Rattle.weave_entries.specs.OracleReplay.{oracle_entry_of, pairs_of_log};
ghost use Rattle.weave_entries.specs.ShardReplay.{first_unready, state_of_updates, updates_of};
ghost use Rattle.weave_entries.specs.ShardRules.{entries_of_visit, is_judge_asked_by_visit, is_settled_by, kept_stamps, pairs_after_visit, updates_read, IsKeptFor};
ghost use Rattle.shard_node.specs.Shards.{AddsEntry, IsRightlyUnread};
ghost use Rattle.weave_account.specs.Account.{IsBegunStamp};
ghost use Rattle.seen_logs.specs.Seen.{GatesGoOn};
ghost use Rattle.chronicle.specs.declared.note.Note.{Note};
ghost use Rattle.chronicle.specs.Locks.{lock_of};
ghost use Rattle.chronicle.specs.Passes.{IsReady, number_of, seen_by_pass, own_entries};
ghost use Rattle.lock_row.specs.Rows.{names_of, AreReady};
ghost use Rattle.lock_row.specs.Meetings.{AllMet};
ghost use Rattle.seen_logs.specs.Entries.{oracle_entries};
ghost use Rattle.oracle_lock.specs.Seen.{gates_noted, gates_seen, of_gates, AreGateLogs, OracleIsKept};
ghost use Rattle.shard_lock.specs.Visited.{VisitsOver};

use chronicle::{Chronicle, Machine, Pass};
use graph_ops::Record;
use oracle_lock::NotedOracle;
use oracle_lock::laws::{known_events_are_begun, pairs_tell_entries, settling_keeps};
use seen_logs::laws::references_go_on;
use shard_node::{Shard, VisitFault};
use std::alloc::Global;
use std::sync::Wait;
use vector_stamp::Stamp;
use weave_data::Name;
use weave_entries::{GateDeed, OracleDeed, ShardDeed};

/// The shard reads a vertex over the oracle, in one hold of the oracle's lock. What the shard keeps of the vertex and
/// the program's stamp were begun in what the passes have seen. It may wait.
pub(crate) fn visit_over<R: Wait, G: Machine<Entry = GateDeed>>(
    rt: &R,
    alloc: Global,
    shard: &mut Shard,
    shards: u32,
    gates: &[Chronicle<G>],
    oracle: &Chronicle<NotedOracle>,
    passes: &mut [Pass<GateDeed>],
    pass: &mut Pass<OracleDeed>,
    request: u32,
    stamp: Stamp,
    vertex: Name,
) -> Result<Option<Record>, VisitFault>
    requires frame { (lock_of oracle.now).frame ≡ (shards ∷ []) ∷ names_of gates.now }
    requires pass { IsReady (lock_of oracle.now) pass.old }
    requires passes { length passes.old ≡ length gates.now }
    requires all_ready { AreReady gates.now passes.old }
    requires legal { AreGateLogs shards (gates_seen passes.old) }
    requires gates { length gates.now ≤ most_gates }
    requires other_ids { All (λ update. id_of update ≢ id_of stamp) (kept_stamps vertex shard.old.log) }
    requires begun { (event : Stamp) → Contains (stamp ∷ kept_stamps vertex shard.old.log) event
        → IsBegunStamp (of_gates (gates_seen passes.old)) event }
    requires base { IsKeptFor stamp vertex shard.old.log }
    ensures ready { IsReady (lock_of oracle.now) pass.new }
    ensures number { number_of pass.new ≡ number_of pass.old }
    ensures passes { length passes.new ≡ length passes.old }
    ensures all_ready { AreReady gates.now passes.new }
    ensures passes_on { GatesGoOn (of_gates (gates_seen passes.old)) (of_gates (gates_seen passes.new)) }
    ensures legal { AreGateLogs shards (gates_seen passes.new) }
    ensures kept { OracleIsKept shards (gates_seen passes.new) (oracle_entries (seen_by_pass pass.new)) }
    ensures met { (notes : List (Note GateDeed)) × (later : List (Note GateDeed)) × (length notes ≡ length gates.now)
        × AllMet gates.now passes.old passes.new notes later (length gates.now) }
    ensures answer { (before : List OracleEntry) × VisitsOver (number_of pass.old) request stamp vertex
        shard.old shard.new (seen_by_pass pass.old) (own_entries pass.old) (seen_by_pass pass.new) before result }
{
    pairs_tell_entries();
    references_go_on();
    let author = pass.number();
    let mut held = oracle.enter(rt, pass);
    let state = held.state();
    state.meet(gates, passes);
    let read = visit_with(shard, alloc, author, request, stamp, vertex, state);
    state.shows_what_it_keeps();
    held.leave(pass);
    read
}

// The shard reads a vertex, and the oracle is lent to it. The oracle's notes have seen the begins of the events.
fn visit_with(
    shard: &mut Shard,
    alloc: Global,
    author: u32,
    request: u32,
    stamp: Stamp,
    vertex: Name,
    oracle: &mut NotedOracle,
) -> Result<Option<Record>, VisitFault>
    requires gates { length oracle.old.gates ≤ most_gates }
    requires other_ids { All (λ update. id_of update ≢ id_of stamp) (kept_stamps vertex shard.old.log) }
    requires begun { (event : Stamp) → Contains (stamp ∷ kept_stamps vertex shard.old.log) event
        → IsBegunStamp (of_gates (gates_noted oracle.old.gates)) event }
    requires base { IsKeptFor stamp vertex shard.old.log }
    ensures shards { oracle.new.shards ≡ oracle.old.shards }
    ensures notes { oracle.new.gates ≡ oracle.old.gates }
    ensures ready { OnOk result (first_unready shard.old.gates stamp shard.old.log ≡ None) }
    ensures state { IfOk result (λ state. state ≡ state_of_updates
        (take (updates_read (pairs_of_log oracle.old.oracle) stamp vertex shard.old.log)
        (updates_of vertex shard.old.log))) }
    ensures entry { OnOk result (AddsEntry shard.old shard.new author (ShardDeed.Visited request stamp vertex
        (updates_read (pairs_of_log oracle.old.oracle) stamp vertex shard.old.log)
        (is_settled_by (pairs_of_log oracle.old.oracle) stamp vertex shard.old.log))) }
    ensures logged { OnOk result (oracle.new.oracle ≡ oracle.old.oracle
        ++ map oracle_entry_of (entries_of_visit (pairs_of_log oracle.old.oracle) author stamp vertex shard.old.log)) }
    ensures pairs { OnOk result (pairs_of_log oracle.new.oracle
        ≡ pairs_after_visit (pairs_of_log oracle.old.oracle) stamp vertex shard.old.log) }
    ensures not_ready { IsSome (first_unready shard.old.gates stamp shard.old.log)
        → oracle.new.oracle ≡ oracle.old.oracle }
    ensures not_asked { is_judge_asked_by_visit stamp vertex shard.old.log ≡ false
        → oracle.new.oracle ≡ oracle.old.oracle }
    ensures refused { IfErr result (λ fault. IsRightlyUnread shard.old.gates stamp shard.old.log fault) }
    ensures unchanged { OnErr result (shard.new ≡ shard.old) }
    ensures oracle { OnErr result (oracle.new.oracle ≡ oracle.old.oracle) }
{
    known_events_are_begun();
    settling_keeps();
    let mut judge = oracle.lend(alloc);
    let read = shard.visit(alloc, author, request, stamp, vertex, &mut judge);
    judge.log();
    oracle.give_back(judge);
    read
}
