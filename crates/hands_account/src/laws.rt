//! What follows for the closed logs of a run by hands, as contracts over the logs alone.
ghost use Rattle.std.specs.Prelude.{◌≡◌, ℕ, ◌<◌, List, [], Some};
ghost use Rattle.program_defs.specs.declared.script.Request.{Request};
ghost use Rattle.program_defs.specs.declared.script.Script.{Script};
ghost use Rattle.program_defs.specs.Limits.{IsWithinLimits};
ghost use Rattle.report_rules.specs.Lookups.{request_at};
ghost use Rattle.weave_entries.specs.declared.session_log.SessionEntry.{SessionEntry};
ghost use Rattle.weave_entries.specs.SessionReplay.{next_request, session_of};
ghost use Rattle.weave_account.specs.declared.account.Account.{Account};
ghost use Rattle.weave_account.specs.Account.{session_log};
ghost use Rattle.weave_account.specs.Gatekeepers.{last_stamp};
ghost use Rattle.weave_account.specs.GoesOn.{GoesOn, IsBeginningOf};
ghost use Rattle.weave_account.specs.IsAccount.{IsAccount};
ghost use Rattle.weave_account.specs.Sessions.{SessionsClause, requests_of_session};
ghost use Rattle.seen_logs.specs.Closed.{AreOfHands};
ghost use Rattle.seen_logs.specs.Seen.{AreLegal, without_sessions};
ghost use Rattle.hands_account.specs.Runs.{FinishesOwnPrograms, IsFollowedByHand, IsRunByHands};

use crate::lower_laws::the_crates_below_keep_their_laws;

/// The logs at the end of a run by hands are an account of the script, if each hand has seen what its entries refer to
/// and follows the script, and no request is given to two hands.
pub fn closed_logs_are_an_account()
    ensures { (script : Script) (hands : ℕ) (start : Account) (seen_by : ℕ → Account) (closed : Account)
        → IsWithinLimits script → AreLegal script.gates script.shards closed
        → AreOfHands script.shards hands (without_sessions start) seen_by (without_sessions closed)
        → IsRunByHands script hands start seen_by closed → IsAccount script closed }
{
    the_crates_below_keep_their_laws();
}

/// They go on from the logs at the start, if the sessions' logs do.
pub fn closed_logs_go_on()
    ensures { (shards hands : ℕ) (start : Account) (seen_by : ℕ → Account) (closed : Account)
        → AreOfHands shards hands (without_sessions start) seen_by (without_sessions closed)
        → ((session : ℕ) → IsBeginningOf (session_log start session) (session_log closed session))
        → GoesOn start closed }
{}

/// What a hand made follows the script, if the closed logs are an account of it and the hand finishes its own programs
/// alone. So the other clauses ask nothing of a hand that an account doesn't have.
pub fn hands_of_an_account_follow_its_script()
    ensures { (script : Script) (hands : ℕ) (start : Account) (seen_by : ℕ → Account) (closed : Account)
        → IsWithinLimits script → AreLegal script.gates script.shards closed
        → AreOfHands script.shards hands (without_sessions start) seen_by (without_sessions closed)
        → IsAccount script closed → (number : ℕ) → number < hands
        → FinishesOwnPrograms number start (seen_by number)
        → IsFollowedByHand script number start (seen_by number) closed }
{
    the_crates_below_keep_their_laws();
}

/// The stamp that a request has to hear is the one that its session's log had begun last when the request was the next
/// one there. So a hand that keeps the logs of its sessions knows it.
pub fn last_stamps_are_those_of_sessions()
    ensures { (script : Script) (account : Account) → SessionsClause script account
        → (r : ℕ) (request : Request) → request_at script r ≡ Some request
        → (log : List SessionEntry) → IsBeginningOf log (session_log account request.session)
        → next_request (session_of (requests_of_session script request.session) log) ≡ Some r
        → last_stamp script account r ≡ (session_of [] log).last }
{
    the_crates_below_keep_their_laws();
}
