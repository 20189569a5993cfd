//! The store with its notes.
ghost use Rattle.weave_data.specs.Limits.{most_gates};
ghost use Rattle.seen_logs.specs.Entries.{oracle_entries};
ghost use Rattle.oracle_lock.specs.Seen.{gates_noted};
ghost use Rattle.chronicle.specs.Passes.{seen_by_note};
ghost use Rattle.store_lock.specs.Seen.{StoreIsKept};

use crate::judging::judge_over;
use crate::lower_laws::verdicts_are_right;
use backing_store::Store;
use backing_store::laws::what_is_asked_is_kept;
use chronicle::{Chronicle, Machine, Note, Pass};
use graph_ops::Op;
use oracle_lock::{NotedOracle, meet_gates};
use seen_logs::laws::references_go_on;
use std::alloc::{AllocError, Global};
use std::marker::Model;
use std::sync::Wait;
use vector_stamp::Stamp;
use weave_entries::{GateDeed, OracleDeed, StoreDeed, Verdict};

/// The store with a note of each gatekeeper's lock, in their order, and one of the oracle's. The notes have seen all to
/// which its judgements refer. Contracts see its log, the number of shards, and the notes.
#[derive(Drop)]
pub struct NotedStore {
    pub(crate) store: Store,
    // The number of shards, to which the gatekeepers send.
    pub(crate) shards: u32,
    pub(crate) gates: Vec<Note<GateDeed>>,
    pub(crate) oracle: Note<OracleDeed>,
}

impl Model for NotedStore {
    ghost use Rattle.chronicle.specs.Passes.{seen_by_note};
    ghost use Rattle.seen_logs.specs.Entries.{oracle_entries};
    ghost use Rattle.oracle_lock.specs.Seen.{gates_noted};
    ghost use Rattle.store_lock.specs.Seen.{StoreIsKept, StoreView};

    ghost Value = { StoreView };

    ghost view = { λ n. record {
      store = n.store;
      shards = n.shards;
      gates = n.gates.items;
      oracle = n.oracle;
    } };

    ghost invariant = { λ n.
        StoreIsKept n.shards (gates_noted n.gates.items) (oracle_entries (seen_by_note n.oracle)) n.store };
}

impl Machine for NotedStore {
    type Entry = StoreDeed;

    ghost use Rattle.std.specs.Prelude.{[], ◌∷◌, map};
    ghost use Rattle.chronicle.specs.Passes.{lock_noted};
    ghost use Rattle.seen_logs.specs.Entries.{store_pairs};

    ghost frame = { λ n. (n.shards ∷ []) ∷ lock_noted n.oracle ∷ map lock_noted n.gates };

    ghost log = { λ n. store_pairs n.store };
}

impl NotedStore {
    ghost use Rattle.std.specs.Prelude.{◌≡◌, ◌≢◌, ◌<◌, ◌≤◌, ℕ, List, [], ◌∷◌, length, map, All, Contains};
    ghost use Rattle.vector_stamp.specs.declared.clock.Stamp.{Stamp};
    ghost use Rattle.vector_stamp.specs.Order.{id_of};
    ghost use Rattle.weave_entries.specs.declared.gate_log.GateDeed.{GateDeed};
    ghost use Rattle.weave_entries.specs.declared.oracle_log.OracleEntry.{OracleEntry};
    ghost use Rattle.weave_entries.specs.GateReplay.{txs_of};
    ghost use Rattle.weave_entries.specs.StoreRule.{ops_bound};
    ghost use Rattle.backing_store.specs.Commits.{stamps_judged};
    ghost use Rattle.weave_account.specs.Account.{gate_log};
    ghost use Rattle.seen_logs.specs.Seen.{GatesGoOn};
    ghost use Rattle.chronicle.specs.declared.note.Note.{Note};
    ghost use Rattle.chronicle.specs.Locks.{lock_of};
    ghost use Rattle.chronicle.specs.Passes.{IsReady, IsNote, number_of, seen_by_pass, own_entries, lock_noted};
    ghost use Rattle.lock_row.specs.Rows.{names_of, AreReady};
    ghost use Rattle.lock_row.specs.Meetings.{AllMet};
    ghost use Rattle.oracle_lock.specs.Seen.{gates_seen, of_gates, AreGateLogs, OracleIsKept};
    ghost use Rattle.store_lock.specs.Judged.{JudgesOver};

    /// The store with these notes, for the number of shards.
    pub fn new(
        store: Store,
        shards: u32,
        gates: Vec<Note<GateDeed>>,
        oracle: Note<OracleDeed>,
    ) -> NotedStore
        requires { StoreIsKept shards (gates_noted gates.items) (oracle_entries (seen_by_note oracle)) store }
        ensures store { result.store ≡ store }
        ensures shards { result.shards ≡ shards }
        ensures gates { result.gates ≡ gates.items }
        ensures oracle { result.oracle ≡ oracle }
    {
        NotedStore {
            store,
            shards,
            gates,
            oracle,
        }
    }

    /// The store without its notes.
    pub fn into_store(self) -> Store
        ensures { result ≡ self.store }
    {
        let NotedStore {
            store,
            shards: _,
            gates: _,
            oracle: _,
        } = self;
        store
    }

    /// What the type keeps: all that the judgements refer to was seen.
    pub fn shows_what_it_keeps(&self)
        ensures { StoreIsKept self.now.shards (gates_noted self.now.gates)
            (oracle_entries (seen_by_note self.now.oracle))
            self.now.store }
    {
        let _ = &self.store;
    }

    /// The notes of gatekeepers' locks meet passes. Both have then seen the same.
    pub fn meet<G: Machine<Entry = GateDeed>>(
        &mut self,
        gates: &[Chronicle<G>],
        passes: &mut [Pass<GateDeed>],
    )
        requires passes { length passes.old ≡ length gates.now }
        requires names { map lock_noted self.old.gates ≡ names_of gates.now }
        requires ready { AreReady gates.now passes.old }
        requires legal { AreGateLogs self.old.shards (gates_seen passes.old) }
        ensures store { self.new.store ≡ self.old.store }
        ensures shards { self.new.shards ≡ self.old.shards }
        ensures oracle { self.new.oracle ≡ self.old.oracle }
        ensures passes { length passes.new ≡ length passes.old }
        ensures names { map lock_noted self.new.gates ≡ map lock_noted self.old.gates }
        ensures ready { AreReady gates.now passes.new }
        ensures met { AllMet gates.now passes.old passes.new self.old.gates self.new.gates (length gates.now) }
        ensures one { gates_noted self.new.gates ≡ gates_seen passes.new }
        ensures notes_on { GatesGoOn (of_gates (gates_noted self.old.gates)) (of_gates (gates_noted self.new.gates)) }
        ensures passes_on { GatesGoOn (of_gates (gates_seen passes.old)) (of_gates (gates_seen passes.new)) }
        ensures legal { AreGateLogs self.old.shards (gates_seen passes.new) }
    {
        references_go_on();
        meet_gates(gates, passes, &mut self.gates);
    }

    /// Judges a transaction in this hold, over the oracle in one hold of its lock. The passes have seen what the notes
    /// have. The transaction was begun there by the author of the oracle's pass. It may wait.
    pub fn commit<R: Wait, G: Machine<Entry = GateDeed>>(
        &mut self,
        rt: &R,
        alloc: Global,
        gates: &[Chronicle<G>],
        oracle: &Chronicle<NotedOracle>,
        passes: &mut [Pass<GateDeed>],
        pass: &mut Pass<OracleDeed>,
        request: u32,
        stamp: Stamp,
        ops: &[Op],
    ) -> Result<Verdict, AllocError>
        requires frame { (lock_of oracle.now).frame ≡ (self.old.shards ∷ []) ∷ names_of gates.now }
        requires note { IsNote (lock_of oracle.now) self.old.oracle }
        requires pass { IsReady (lock_of oracle.now) pass.old }
        requires passes { length passes.old ≡ length gates.now }
        requires all_ready { AreReady gates.now passes.old }
        requires legal { AreGateLogs self.old.shards (gates_seen passes.old) }
        requires met { GatesGoOn (of_gates (gates_noted self.old.gates)) (of_gates (gates_seen passes.old)) }
        requires gates { length gates.now ≤ most_gates }
        requires few { length ops.now < ops_bound }
        requires new { All (λ (judged : Stamp). id_of judged ≢ id_of stamp) (stamps_judged self.old.store) }
        requires begun { (home : ℕ) × Contains (txs_of (gate_log (of_gates (gates_noted self.old.gates)) home))
            (record { author = number_of pass.old; request = request; stamp = stamp }) }
        ensures shards { self.new.shards ≡ self.old.shards }
        ensures gates { self.new.gates ≡ self.old.gates }
        ensures note { lock_noted self.new.oracle ≡ lock_noted self.old.oracle }
        ensures one { seen_by_note self.new.oracle ≡ seen_by_pass pass.new }
        ensures ready { IsReady (lock_of oracle.now) pass.new }
        ensures number { number_of pass.new ≡ number_of pass.old }
        ensures passes { length passes.new ≡ length passes.old }
        ensures all_ready { AreReady gates.now passes.new }
        ensures passes_on { GatesGoOn (of_gates (gates_seen passes.old)) (of_gates (gates_seen passes.new)) }
        ensures legal { AreGateLogs self.old.shards (gates_seen passes.new) }
        ensures oracle_kept { OracleIsKept self.old.shards (gates_seen passes.new)
            (oracle_entries (seen_by_pass pass.new)) }
        ensures met { (notes : List (Note GateDeed)) × (later : List (Note GateDeed))
            × (length notes ≡ length gates.now)
            × AllMet gates.now passes.old passes.new notes later (length gates.now) }
        ensures answer { (before : List OracleEntry) × JudgesOver (number_of pass.old) request stamp ops.now
            self.old.store self.new.store (seen_by_pass pass.old) (own_entries pass.old)
            (seen_by_pass pass.new) before result }
    {
        references_go_on();
        what_is_asked_is_kept();
        verdicts_are_right();
        oracle.meet(pass, &mut self.oracle);
        let judged = judge_over(
            rt,
            alloc,
            &mut self.store,
            self.shards,
            gates,
            oracle,
            passes,
            pass,
            request,
            stamp,
            ops,
        );
        self.oracle = oracle.note(pass);
        self.store.log();
        judged
    }
}
