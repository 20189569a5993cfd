//! What follows from the definitions.
ghost use Rattle.std.specs.Prelude.{◌≡◌, ◌<◌, ℕ, List, length, map};
ghost use Rattle.weave_entries.specs.declared.gate_log.GateEntry.{GateEntry};
ghost use Rattle.weave_entries.specs.declared.gate_log.GateDeed.{GateDeed};
ghost use Rattle.gatekeeper.specs.Gates.{GateView};
ghost use Rattle.weave_account.specs.declared.account.Account.{Account};
ghost use Rattle.weave_account.specs.Account.{gate_log, shard_log};
ghost use Rattle.seen_logs.specs.Seen.{AreLegal, GateRefersWithin};
ghost use Rattle.chronicle.specs.Logs.{Log};
ghost use Rattle.gate_lock.specs.declared.notes.GateNotes.{GateNotes};
ghost use Rattle.seen_logs.specs.Entries.{gate_entries, gate_pair};
ghost use Rattle.gate_lock.specs.Notes.{GateIsKept, seen_of_gate};

use crate::lower_laws::the_crates_below_keep_their_laws;

/// A gatekeeper's entries come back from the pairs that its lock has, and the pairs from the entries.
pub fn entries_come_back()
    ensures log { (log : List GateEntry) → gate_entries (map gate_pair log) ≡ log }
    ensures pairs { (log : Log GateDeed) → map gate_pair (gate_entries log) ≡ log }
{}

/// Notes that have seen whole logs are enough for a gatekeeper, if the logs are legal and have all that the
/// gatekeeper's own log refers to: those of an account, for example.
pub fn notes_of_whole_logs_are_enough()
    ensures { (gate : GateView) (notes : GateNotes) (account : Account) → gate.home < gate.gates
        → length notes.gates.items ≡ gate.gates → length notes.shards.items ≡ gate.shards
        → AreLegal gate.gates gate.shards account → GateRefersWithin gate.shards account gate.home
        → ((k : ℕ) → gate_log (seen_of_gate gate notes) k ≡ gate_log account k)
        → (seen_of_gate gate notes).store ≡ account.store
        → ((k : ℕ) → shard_log (seen_of_gate gate notes) k ≡ shard_log account k) → GateIsKept gate notes }
{
    the_crates_below_keep_their_laws();
}
