//! Why no core is ever stuck, as contracts over the logs of an account.
ghost use Rattle.std.specs.Prelude.{◌≡◌, ◌≢◌, ◌⊎◌, ℕ, ◌<◌, ◌≤◌, length, Contains, IsTrue, None, Some};
ghost use Rattle.vector_stamp.specs.declared.clock.Clock.{Clock};
ghost use Rattle.vector_stamp.specs.declared.clock.Stamp.{Stamp};
ghost use Rattle.vector_stamp.specs.Clocks.{clock_after_hearing};
ghost use Rattle.vector_stamp.specs.Order.{is_at_most, stamp_before};
ghost use Rattle.weave_data.specs.declared.name.Name.{Name};
ghost use Rattle.program_defs.specs.declared.program.Program.{Program};
ghost use Rattle.program_defs.specs.declared.script.Request.{Request};
ghost use Rattle.program_defs.specs.declared.script.Script.{Script};
ghost use Rattle.program_defs.specs.declared.script.Step.{Step};
ghost use Rattle.program_defs.specs.declared.script.Step.TheVariants.{Visit};
ghost use Rattle.program_defs.specs.declared.script.Work.TheVariants.{Look};
ghost use Rattle.program_defs.specs.Limits.{IsWithinLimits};
ghost use Rattle.program_defs.specs.Visits.{next_visit};
ghost use Rattle.report_rules.specs.Lookups.{request_at};
ghost use Rattle.shard_queue.specs.Outbox.{sent_as};
ghost use Rattle.weave_entries.specs.declared.message.Addressed.{Addressed};
ghost use Rattle.weave_entries.specs.declared.message.Message.{Message};
ghost use Rattle.weave_entries.specs.GateReplay.{addressed_to, channel_of, clock_of, next_stamp, stamps_of};
ghost use Rattle.weave_entries.specs.ShardReplay.{arrived_at, first_unready, head_of, processed_count};
ghost use Rattle.weave_account.specs.declared.account.Account.{Account};
ghost use Rattle.weave_account.specs.Account.{gate_log, reads_of, shard_log, NoneInFlight};
ghost use Rattle.weave_account.specs.Clocks.{IsKnown};
ghost use Rattle.weave_account.specs.GoesOn.{GoesOn};
ghost use Rattle.weave_account.specs.IsAccount.{IsAccount};
ghost use Rattle.step_rules.specs.CoreState.{CoreState};
ghost use Rattle.step_rules.specs.IsCore.{IsCore, IsStepOf};
ghost use Rattle.step_rules.specs.Trace.{state_after};
ghost use Rattle.drive_rules.specs.Heads.{AllArrived, AllProcessed, CanApply};
ghost use Rattle.drive_rules.specs.Links.{link_count};
ghost use Rattle.drive_rules.specs.Readiness.{IsPassed};

use crate::lower_laws::the_crates_below_keep_their_laws;

/// What arrived at a shard was sent there. Each message on a channel is of a gatekeeper of the script, has a stamp of
/// that gatekeeper and a number from 1, and is found under it. The processed messages of a channel are the first ones,
/// and each of them has arrived.
pub fn messages_arrive_as_sent()
    ensures arrived { (script : Script) (account : Account) → IsWithinLimits script → IsAccount script account
        → (shard home number : ℕ) (message : Message) → arrived_at home number (shard_log account shard) ≡ Some message
        → Contains (addressed_to shard (gate_log account home))
        (record { shard = shard; number = number; message = message }) }
    ensures gatekeepers { (script : Script) (account : Account) → IsWithinLimits script → IsAccount script account
        → (shard home : ℕ) (addressed : Addressed) → Contains (addressed_to shard (gate_log account home)) addressed
        → home < script.gates }
    ensures homes { (script : Script) (account : Account) → IsWithinLimits script → IsAccount script account
        → (shard home : ℕ) (addressed : Addressed) → Contains (addressed_to shard (gate_log account home)) addressed
        → addressed.message.stamp.home ≡ home }
    ensures numbers { (script : Script) (account : Account) → IsWithinLimits script → IsAccount script account
        → (shard home : ℕ) (addressed : Addressed) → Contains (addressed_to shard (gate_log account home)) addressed
        → (1 ≤ addressed.number) × (addressed.number ≤ length (channel_of shard (gate_log account home))) }
    ensures numbered { (script : Script) (account : Account) → IsWithinLimits script → IsAccount script account
        → (shard home : ℕ) (addressed : Addressed) → Contains (addressed_to shard (gate_log account home)) addressed
        → sent_as addressed.number (channel_of shard (gate_log account home)) ≡ Some addressed.message }
    ensures processed { (script : Script) (account : Account) → IsWithinLimits script → IsAccount script account
        → (shard home number : ℕ) → 1 ≤ number → number ≤ processed_count home (shard_log account shard)
        → (message : Message) × (arrived_at home number (shard_log account shard) ≡ Some message) }
{
    the_crates_below_keep_their_laws();
}

/// If no transaction is in flight and all that was sent to a shard has arrived there, the shard has no head, or one
/// that can be applied: one that no other head precedes. So if none can be applied, all that was sent there was
/// processed.
pub fn no_shard_is_stuck()
    ensures some_head { (script : Script) (account : Account) → IsWithinLimits script → IsAccount script account
        → NoneInFlight account → (shard : ℕ) → AllArrived account shard
        → ((home : ℕ) → head_of home (shard_log account shard) ≡ None)
        ⊎ ((home : ℕ) × CanApply account shard home) }
    ensures all_processed { (script : Script) (account : Account) → IsWithinLimits script → IsAccount script account
        → NoneInFlight account → (shard : ℕ)
        → AllArrived account shard → ((home : ℕ) → ¬ CanApply account shard home) → AllProcessed account shard }
{
    the_crates_below_keep_their_laws();
}

/// A known clock may be heard in whatever epoch. The gatekeeper's next stamp is then after each stamp whose clock is at
/// most the heard one. The clock of the gatekeeper that made the stamp is such a clock, from then on. At that
/// gatekeeper nothing need be heard.
pub fn known_clocks_may_be_heard()
    ensures after_hearing { (script : Script) (account : Account) → IsWithinLimits script → IsAccount script account
        → (gate : ℕ) → gate < script.gates → (notice : Clock) → IsKnown account notice
        → (stamp : Stamp) → IsTrue (is_at_most stamp.clock notice) → IsTrue (stamp_before stamp
        (next_stamp gate (clock_after_hearing gate (clock_of gate (gate_log account gate)) notice))) }
    ensures after_its_home { (script : Script) (account : Account) → IsWithinLimits script → IsAccount script account
        → (gate home : ℕ) → gate < script.gates → home < script.gates
        → (stamp : Stamp) → Contains (stamps_of (gate_log account home)) stamp → IsTrue (stamp_before stamp
        (next_stamp gate (clock_after_hearing gate (clock_of gate (gate_log account gate))
        (clock_of home (gate_log account home))))) }
    ensures at_home { (script : Script) (account : Account) → IsWithinLimits script → IsAccount script account
        → (home : ℕ) → home < script.gates → (stamp : Stamp) → Contains (stamps_of (gate_log account home)) stamp
        → IsTrue (stamp_before stamp (next_stamp home (clock_of home (gate_log account home)))) }
    ensures said_later { (script : Script) (account : Account) → IsWithinLimits script → IsAccount script account
        → (home : ℕ) → home < script.gates → (stamp : Stamp) → Contains (stamps_of (gate_log account home)) stamp
        → IsTrue (is_at_most stamp.clock (clock_of home (gate_log account home))) }
{
    the_crates_below_keep_their_laws();
}

/// If of each gatekeeper a message after a program's stamp was processed, the shard is ready for the program. A shard
/// that is ready, in whatever way, stays ready.
pub fn readiness_stays()
    ensures reached { (script : Script) (account : Account) → IsWithinLimits script → IsAccount script account
        → (shard : ℕ) (stamp : Stamp) → ((home : ℕ) → home < script.gates → IsPassed account shard stamp home)
        → first_unready script.gates stamp (shard_log account shard) ≡ None }
    ensures passed { (account next : Account) → GoesOn account next → (shard : ℕ) (stamp : Stamp) (home : ℕ)
        → IsPassed account shard stamp home → IsPassed next shard stamp home }
    ensures stays { (script : Script) (account next : Account) → IsWithinLimits script → IsAccount script account
        → IsAccount script next → GoesOn account next → (shard : ℕ) (stamp : Stamp)
        → first_unready script.gates stamp (shard_log account shard) ≡ None
        → first_unready script.gates stamp (shard_log next shard) ≡ None }
{
    the_crates_below_keep_their_laws();
}

/// A program reads its start and targets of links, each vertex once. So one that has a next vertex has read at most as
/// many vertices as the script makes links.
pub fn programs_read_few()
    ensures { (script : Script) (account : Account) → IsWithinLimits script → IsAccount script account
        → (r : ℕ) (request : Request) (program : Program) → request_at script r ≡ Some request
        → request.work ≡ Look program → (v : Name) → next_visit (reads_of account r) program ≡ Some v
        → length (reads_of account r) ≤ link_count script }
{
    the_crates_below_keep_their_laws();
}

/// What a request has read stays the same at each step but a visit of its own. If it is a program that has no next
/// vertex it stays the same at each step.
pub fn reads_stay()
    ensures others { (script : Script) (state : CoreState) (step : Step) → IsWithinLimits script
        → IsStepOf script step → IsCore script state → (r : ℕ) → step ≢ Visit r
        → reads_of (state_after script state step).account r ≡ reads_of state.account r }
    ensures whole { (script : Script) (state : CoreState) (step : Step) → IsWithinLimits script
        → IsStepOf script step → IsCore script state → (r : ℕ) (request : Request) (program : Program)
        → request_at script r ≡ Some request → request.work ≡ Look program
        → next_visit (reads_of state.account r) program ≡ None
        → reads_of (state_after script state step).account r ≡ reads_of state.account r }
{
    the_crates_below_keep_their_laws();
}
