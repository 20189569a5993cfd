//! A judgement under the oracle's lock.
ghost use Rattle.std.specs.Prelude.{◌≡◌, ◌≢◌, ◌<◌, ◌≤◌, [], ◌∷◌, List, length, All, Contains};
ghost use Rattle.weave_data.specs.Limits.{most_gates};
ghost use Rattle.vector_stamp.specs.declared.clock.Stamp.{Stamp};
ghost use Rattle.vector_stamp.specs.Order.{id_of};
ghost use Rattle.weave_entries.specs.declared.oracle_log.OracleEntry.{OracleEntry};
ghost use Rattle.weave_entries.specs.declared.gate_log.GateDeed.{GateDeed};
ghost use Rattle.weave_entries.specs.StoreReplay.{commits_of};
ghost use Rattle.weave_entries.specs.StoreRule.{ops_bound};
ghost use Rattle.backing_store.specs.Commits.{stamps_judged, stamps_kept};
ghost use Rattle.weave_account.specs.Account.{IsBegunStamp};
ghost use Rattle.seen_logs.specs.Seen.{GatesGoOn};
ghost use Rattle.chronicle.specs.declared.note.Note.{Note};
ghost use Rattle.chronicle.specs.Locks.{lock_of};
ghost use Rattle.chronicle.specs.Passes.{IsReady, number_of, seen_by_pass, own_entries};
ghost use Rattle.lock_row.specs.Rows.{names_of, AreReady};
ghost use Rattle.lock_row.specs.Meetings.{AllMet};
ghost use Rattle.seen_logs.specs.Entries.{oracle_entries};
ghost use Rattle.oracle_lock.specs.Seen.{gates_seen, of_gates, AreGateLogs, OracleIsKept};
ghost use Rattle.store_lock.specs.Judged.{JudgesOver};

use backing_store::Store;
use chronicle::{Chronicle, Machine, Pass};
use graph_ops::Op;
use oracle_lock::NotedOracle;
use oracle_lock::laws::pairs_tell_entries;
use seen_logs::laws::references_go_on;
use std::alloc::{AllocError, Global};
use std::sync::Wait;
use vector_stamp::Stamp;
use weave_entries::{GateDeed, OracleDeed, Verdict};

/// The store judges over the oracle, in one hold of the oracle's lock. What the store keeps and the new stamp were
/// begun in what the passes have seen. It may wait.
pub(crate) fn judge_over<R: Wait, G: Machine<Entry = GateDeed>>(
    rt: &R,
    alloc: Global,
    store: &mut Store,
    shards: u32,
    gates: &[Chronicle<G>],
    oracle: &Chronicle<NotedOracle>,
    passes: &mut [Pass<GateDeed>],
    pass: &mut Pass<OracleDeed>,
    request: u32,
    stamp: Stamp,
    ops: &[Op],
) -> Result<Verdict, AllocError>
    requires frame { (lock_of oracle.now).frame ≡ (shards ∷ []) ∷ names_of gates.now }
    requires pass { IsReady (lock_of oracle.now) pass.old }
    requires passes { length passes.old ≡ length gates.now }
    requires all_ready { AreReady gates.now passes.old }
    requires legal { AreGateLogs shards (gates_seen passes.old) }
    requires gates { length gates.now ≤ most_gates }
    requires few { length ops.now < ops_bound }
    requires new { All (λ (judged : Stamp). id_of judged ≢ id_of stamp) (stamps_judged store.old) }
    requires begun { (event : Stamp) → Contains (stamp ∷ stamps_kept (commits_of store.old)) event
        → IsBegunStamp (of_gates (gates_seen passes.old)) event }
    ensures ready { IsReady (lock_of oracle.now) pass.new }
    ensures number { number_of pass.new ≡ number_of pass.old }
    ensures passes { length passes.new ≡ length passes.old }
    ensures all_ready { AreReady gates.now passes.new }
    ensures passes_on { GatesGoOn (of_gates (gates_seen passes.old)) (of_gates (gates_seen passes.new)) }
    ensures legal { AreGateLogs shards (gates_seen passes.new) }
    ensures kept { OracleIsKept shards (gates_seen passes.new) (oracle_entries (seen_by_pass pass.new)) }
    ensures met { (notes : List (Note GateDeed)) × (later : List (Note GateDeed)) × (length notes ≡ length gates.now)
        × AllMet gates.now passes.old passes.new notes later (length gates.now) }
    ensures answer { (before : List OracleEntry) × JudgesOver (number_of pass.old) request stamp ops.now
        store.old store.new (seen_by_pass pass.old) (own_entries pass.old) (seen_by_pass pass.new) before result }
{
    pairs_tell_entries();
    references_go_on();
    let author = pass.number();
    let mut held = oracle.enter(rt, pass);
    let state = held.state();
    state.meet(gates, passes);
    let judged = state.judge(store, alloc, author, request, stamp, ops);
    state.shows_what_it_keeps();
    held.leave(pass);
    judged
}
