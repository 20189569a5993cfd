//! What holds of a core's state from the start on, as contracts over the definitions alone.
ghost use Rattle.std.specs.Prelude.{◌≡◌, ◌≢◌, ◌↔◌, ℕ, ◌<◌, ◌^◌, List, [], ◌∷◌, ◌++◌, length, Contains, IsTrue, Some};
ghost use Rattle.program_defs.specs.declared.script.Request.{Request};
ghost use Rattle.program_defs.specs.declared.script.Script.{Script};
ghost use Rattle.program_defs.specs.declared.script.Step.{Step};
ghost use Rattle.program_defs.specs.Works.{is_look};
ghost use Rattle.report_rules.specs.Lookups.{request_at};
ghost use Rattle.report_rules.specs.declared.report.Report.{Report};
ghost use Rattle.report_rules.specs.declared.report.StepAnswer.TheVariants.{Ok};
ghost use Rattle.step_rules.specs.CoreState.{CoreState, start_state};
ghost use Rattle.step_rules.specs.Requests.{has_reply};
ghost use Rattle.step_rules.specs.Answers.{answer_of};
ghost use Rattle.step_rules.specs.Entries.{state_with};
ghost use Rattle.step_rules.specs.Trace.{state_after, trace_of, trace_start, traced_after};
ghost use Rattle.step_rules.specs.Finishing.{IsReplyDone, RepliesFinishPrograms};
ghost use Rattle.weave_account.specs.Account.{is_ended};
ghost use Rattle.weave_account.specs.GoesOn.{GoesOn, IsBeginningOf};
ghost use Rattle.weave_account.specs.IsAccount.{IsAccount};
ghost use Rattle.weave_account.specs.Report.{IsReportOfAccount};
ghost use Rattle.program_defs.specs.Limits.{IsWithinLimits};
ghost use Rattle.step_rules.specs.IsCore.{AreSteps, IsCore, IsSmall, IsSmallIfDone, IsStepOf};

use crate::lower_laws::{
    accounts_keep_their_laws, programs_keep_their_laws, the_crates_below_keep_their_laws,
};
use weave_account::laws::{empty_logs_are_an_account, finished_exactly_if_replied};

/// Before the first step the state is that of a core.
pub fn start_is_a_core()
    ensures { (script : Script) → IsCore script (start_state script) }
{
    empty_logs_are_an_account();
}

/// A step that answers `ok` makes its entries, and any other leaves the state as it was.
pub fn refused_steps_change_nothing()
    ensures done { (script : Script) (state : CoreState) (step : Step) → answer_of script state step ≡ Ok
        → state_after script state step ≡ state_with script state step }
    ensures refused { (script : Script) (state : CoreState) (step : Step) → answer_of script state step ≢ Ok
        → state_after script state step ≡ state }
{}

/// A step that is done leaves a core, and any other leaves the state as it was. The logs and the notices begin with
/// those before the step.
pub fn steps_keep_the_core()
    ensures done { (script : Script) (state : CoreState) (step : Step) → IsWithinLimits script → IsStepOf script step
        → IsSmall script state step → IsCore script state → answer_of script state step ≡ Ok
        → IsCore script (state_with script state step) }
    ensures tried { (script : Script) (state : CoreState) (step : Step) → IsWithinLimits script → IsStepOf script step
        → IsSmallIfDone script state step → IsCore script state → IsCore script (state_after script state step) }
    ensures goes_on { (script : Script) (state : CoreState) (step : Step) → IsWithinLimits script
        → IsStepOf script step → IsCore script state → GoesOn state.account (state_after script state step).account }
    ensures notices { (script : Script) (state : CoreState) (step : Step)
        → IsBeginningOf state.notices (state_after script state step).notices }
    ensures refused { (script : Script) (state : CoreState) (step : Step) → answer_of script state step ≢ Ok
        → state_after script state step ≡ state }
{
    the_crates_below_keep_their_laws();
    accounts_keep_their_laws();
    programs_keep_their_laws();
}

/// The state after a list of steps is that of a core, if the stamp of each `begin` that is done has 64 bits.
/// Fewer than 2^64 steps need no such premise: each makes at most one entry at a gatekeeper, so no count gets past 64
/// bits.
pub fn trace_is_a_core()
    ensures core { (script : Script) (steps : List Step) → IsWithinLimits script
        → AreSteps script (start_state script) steps → IsCore script (trace_of script steps).state }
    ensures few { (script : Script) (steps : List Step) → IsWithinLimits script
        → ((step : Step) → Contains steps step → IsStepOf script step) → length steps < 2 ^ 64
        → AreSteps script (start_state script) steps }
{
    the_crates_below_keep_their_laws();
    accounts_keep_their_laws();
    programs_keep_their_laws();
}

/// A trace goes on with each further step.
pub fn traces_go_on()
    ensures at_first { (script : Script) → trace_of script [] ≡ trace_start script }
    ensures next { (script : Script) (steps : List Step) (step : Step)
        → trace_of script (steps ++ step ∷ []) ≡ traced_after script (trace_of script steps) step }
{}

/// After a list of steps a request has its reply exactly if a `reply` of it answered `ok`. A program is finished
/// exactly then: in the logs, and in their report. That the logs are an account is said by `trace_is_a_core`.
pub fn replies_finish_programs()
    ensures replied { (script : Script) (steps : List Step) → IsWithinLimits script
        → (r : ℕ) (request : Request) → request_at script r ≡ Some request
        → IsTrue (has_reply (trace_of script steps).state.account r request)
        ↔ IsReplyDone steps (trace_of script steps).answers r }
    ensures finished { (script : Script) (steps : List Step) → IsWithinLimits script
        → AreSteps script (start_state script) steps
        → (r : ℕ) (request : Request) → request_at script r ≡ Some request → IsTrue (is_look request.work)
        → IsTrue (is_ended (trace_of script steps).state.account r)
        ↔ IsReplyDone steps (trace_of script steps).answers r }
    ensures reported { (script : Script) (steps : List Step) (report : Report) → IsWithinLimits script
        → IsAccount script (trace_of script steps).state.account
        → IsReportOfAccount script (trace_of script steps).state.account report
        → report.answers ≡ (trace_of script steps).answers → RepliesFinishPrograms script steps report }
{
    the_crates_below_keep_their_laws();
    finished_exactly_if_replied();
    trace_is_a_core();
}
