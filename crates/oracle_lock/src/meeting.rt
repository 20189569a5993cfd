//! Notes of gatekeepers' locks meet passes.
ghost use Rattle.std.specs.Prelude.{◌≡◌, ℕ, length, map};
ghost use Rattle.chronicle.specs.Passes.{lock_noted};
ghost use Rattle.lock_row.specs.Rows.{names_of, AreReady};
ghost use Rattle.lock_row.specs.Meetings.{AllMet};
ghost use Rattle.seen_logs.specs.Seen.{GatesGoOn};
ghost use Rattle.oracle_lock.specs.Seen.{gates_noted, gates_seen, of_gates, AreGateLogs};

use chronicle::{Chronicle, Machine, Note, Pass};
use lock_row::meet_others;
use weave_entries::GateDeed;

/// The notes of a machine that is no gatekeeper's meet passes of all gatekeepers' locks. Both have then seen the same.
pub fn meet_gates<G: Machine<Entry = GateDeed>>(
    gates: &[Chronicle<G>],
    passes: &mut [Pass<GateDeed>],
    notes: &mut Vec<Note<GateDeed>>,
)
    requires passes { length passes.old ≡ length gates.now }
    requires names { map lock_noted notes.old.items ≡ names_of gates.now }
    requires ready { AreReady gates.now passes.old }
    ensures passes { length passes.new ≡ length passes.old }
    ensures names { map lock_noted notes.new.items ≡ map lock_noted notes.old.items }
    ensures ready { AreReady gates.now passes.new }
    ensures met { AllMet gates.now passes.old passes.new notes.old.items notes.new.items (length gates.now) }
    ensures one { gates_noted notes.new.items ≡ gates_seen passes.new }
    ensures notes_on { GatesGoOn (of_gates (gates_noted notes.old.items)) (of_gates (gates_noted notes.new.items)) }
    ensures passes_on { GatesGoOn (of_gates (gates_seen passes.old)) (of_gates (gates_seen passes.new)) }
    ensures legal { (shards : ℕ) → AreGateLogs shards (gates_noted notes.old.items)
        → AreGateLogs shards (gates_seen passes.old) → AreGateLogs shards (gates_seen passes.new) }
{
    meet_others(gates, passes, notes.as_mut_slice(), gates.len());
}
