//! The oracle with its notes.
ghost use Rattle.weave_data.specs.Limits.{most_gates};
ghost use Rattle.oracle_lock.specs.Seen.{gates_noted, OracleIsKept};

use crate::laws::{known_events_are_begun, settling_keeps};
use crate::meeting::meet_gates;
use backing_store::Store;
use backing_store::laws::what_is_asked_is_kept;
use chronicle::{Chronicle, Machine, Note, Pass};
use graph_ops::Op;
use seen_logs::laws::references_go_on;
use std::alloc::{AllocError, Global};
use std::marker::Model;
use std::mem;
use timeline_oracle::Oracle;
use vector_stamp::Stamp;
use weave_entries::{GateDeed, OracleDeed, Verdict};

/// The oracle with a note of each gatekeeper's lock, in their order. The notes have seen the begins of all events of
/// which its entries speak. Contracts see its log, the number of shards, and the notes.
#[derive(Drop)]
pub struct NotedOracle {
    oracle: Oracle,
    // The number of shards, to which the gatekeepers send.
    shards: u32,
    gates: Vec<Note<GateDeed>>,
}

impl Model for NotedOracle {
    ghost use Rattle.oracle_lock.specs.Seen.{gates_noted, OracleIsKept, OracleView};

    ghost Value = { OracleView };

    ghost view = { λ n. record {
      oracle = n.oracle;
      shards = n.shards;
      gates = n.gates.items;
    } };

    ghost invariant = { λ n. OracleIsKept n.shards (gates_noted n.gates.items) n.oracle };
}

impl Machine for NotedOracle {
    type Entry = OracleDeed;

    ghost use Rattle.std.specs.Prelude.{[], ◌∷◌, map};
    ghost use Rattle.chronicle.specs.Passes.{lock_noted};
    ghost use Rattle.seen_logs.specs.Entries.{oracle_pairs};

    ghost frame = { λ n. (n.shards ∷ []) ∷ map lock_noted n.gates };

    ghost log = { λ n. oracle_pairs n.oracle };
}

impl NotedOracle {
    ghost use Rattle.std.specs.Prelude.{◌≡◌, ◌≢◌, ◌<◌, ◌≤◌, [], ◌∷◌, ◌++◌, false, length, map, All, Contains, IfOk, OnErr};
    ghost use Rattle.vector_stamp.specs.declared.clock.Stamp.{Stamp};
    ghost use Rattle.vector_stamp.specs.Order.{id_of};
    ghost use Rattle.weave_entries.specs.OracleReplay.{oracle_entry_of, pairs_of_log};
    ghost use Rattle.weave_entries.specs.StoreReplay.{commits_of};
    ghost use Rattle.weave_entries.specs.StoreRule.{ops_bound};
    ghost use Rattle.backing_store.specs.Commits.{stamps_judged, stamps_kept, asked_at, is_judge_asked, verdict_at, judged_entry, pairs_added, entries_added};
    ghost use Rattle.weave_account.specs.Account.{IsBegunStamp};
    ghost use Rattle.seen_logs.specs.Seen.{GatesGoOn};
    ghost use Rattle.chronicle.specs.Passes.{lock_noted};
    ghost use Rattle.lock_row.specs.Rows.{names_of, AreReady};
    ghost use Rattle.lock_row.specs.Meetings.{AllMet};
    ghost use Rattle.oracle_lock.specs.Seen.{gates_seen, of_gates, AreGateLogs};

    /// The oracle with these notes, for the number of shards.
    pub fn new(oracle: Oracle, shards: u32, gates: Vec<Note<GateDeed>>) -> NotedOracle
        requires { OracleIsKept shards (gates_noted gates.items) oracle }
        ensures oracle { result.oracle ≡ oracle }
        ensures shards { result.shards ≡ shards }
        ensures notes { result.gates ≡ gates.items }
    {
        NotedOracle {
            oracle,
            shards,
            gates,
        }
    }

    /// The oracle without its notes.
    pub fn into_oracle(self) -> Oracle
        ensures { result ≡ self.oracle }
    {
        let NotedOracle {
            oracle,
            shards: _,
            gates: _,
        } = self;
        oracle
    }

    /// What the type keeps: all that the entries refer to was seen.
    pub fn shows_what_it_keeps(&self)
        ensures { OracleIsKept self.now.shards (gates_noted self.now.gates) self.now.oracle }
    {
        let _ = &self.oracle;
    }

    /// Lends the oracle, which has to come back by `give_back` before the hold ends. It takes no memory.
    pub fn lend(&mut self, alloc: Global) -> Oracle
        ensures oracle { result ≡ self.old.oracle }
        ensures none { self.new.oracle ≡ [] }
        ensures shards { self.new.shards ≡ self.old.shards }
        ensures notes { self.new.gates ≡ self.old.gates }
        ensures kept { OracleIsKept self.old.shards (gates_noted self.old.gates) result }
    {
        mem::replace(&mut self.oracle, Oracle::new(alloc))
    }

    /// Takes the oracle back, with what it added. Its new entries are of events that the notes have seen.
    pub fn give_back(&mut self, oracle: Oracle)
        requires { OracleIsKept self.old.shards (gates_noted self.old.gates) oracle }
        ensures oracle { self.new.oracle ≡ oracle }
        ensures shards { self.new.shards ≡ self.old.shards }
        ensures notes { self.new.gates ≡ self.old.gates }
    {
        self.oracle = oracle;
    }

    /// The notes meet passes of the gatekeepers' locks. Both have then seen the same.
    pub fn meet<G: Machine<Entry = GateDeed>>(
        &mut self,
        gates: &[Chronicle<G>],
        passes: &mut [Pass<GateDeed>],
    )
        requires passes { length passes.old ≡ length gates.now }
        requires names { map lock_noted self.old.gates ≡ names_of gates.now }
        requires ready { AreReady gates.now passes.old }
        requires legal { AreGateLogs self.old.shards (gates_seen passes.old) }
        ensures oracle { self.new.oracle ≡ self.old.oracle }
        ensures shards { self.new.shards ≡ self.old.shards }
        ensures passes { length passes.new ≡ length passes.old }
        ensures names { map lock_noted self.new.gates ≡ map lock_noted self.old.gates }
        ensures ready { AreReady gates.now passes.new }
        ensures met { AllMet gates.now passes.old passes.new self.old.gates self.new.gates
            (length gates.now) }
        ensures one { gates_noted self.new.gates ≡ gates_seen passes.new }
        ensures notes_on { GatesGoOn (of_gates (gates_noted self.old.gates))
            (of_gates (gates_noted self.new.gates)) }
        ensures passes_on { GatesGoOn (of_gates (gates_seen passes.old)) (of_gates (gates_seen passes.new)) }
        ensures legal { AreGateLogs self.old.shards (gates_seen passes.new) }
    {
        references_go_on();
        meet_gates(gates, passes, &mut self.gates);
    }

    /// The store judges a transaction over the oracle. It and all that the store keeps were begun in what the notes
    /// have seen. The answer and the store's entry are those of `Store::commit` over the oracle's log.
    pub fn judge(
        &mut self,
        store: &mut Store,
        alloc: Global,
        author: u32,
        request: u32,
        stamp: Stamp,
        ops: &[Op],
    ) -> Result<Verdict, AllocError>
        requires few { length ops.now < ops_bound }
        requires gates { length self.old.gates ≤ most_gates }
        requires new { All (λ (judged : Stamp). id_of judged ≢ id_of stamp) (stamps_judged store.old) }
        requires begun { (event : Stamp) → Contains (stamp ∷ stamps_kept (commits_of store.old)) event
            → IsBegunStamp (of_gates (gates_noted self.old.gates)) event }
        ensures shards { self.new.shards ≡ self.old.shards }
        ensures notes { self.new.gates ≡ self.old.gates }
        ensures verdict { IfOk result (λ verdict.
            verdict ≡ verdict_at (pairs_of_log self.old.oracle) store.old stamp ops.now) }
        ensures entry { IfOk result (λ verdict. store.new
            ≡ store.old ++ judged_entry author request stamp ops.now store.old verdict ∷ []) }
        ensures pairs { IfOk result (λ verdict. pairs_of_log self.new.oracle ≡ pairs_of_log self.old.oracle
            ++ pairs_added verdict (pairs_of_log self.old.oracle) (asked_at store.old stamp ops.now) stamp) }
        ensures logged { IfOk result (λ verdict. self.new.oracle ≡ self.old.oracle ++ map oracle_entry_of
            (entries_added verdict author (pairs_of_log self.old.oracle) (asked_at store.old stamp ops.now) stamp)) }
        ensures not_asked { is_judge_asked store.old stamp ops.now ≡ false → self.new.oracle ≡ self.old.oracle }
        ensures store { OnErr result (store.new ≡ store.old) }
        ensures oracle { OnErr result (self.new.oracle ≡ self.old.oracle) }
    {
        known_events_are_begun();
        settling_keeps();
        what_is_asked_is_kept();
        let judged = store.commit(alloc, author, request, stamp, ops, &mut self.oracle);
        self.oracle.log();
        judged
    }
}
