//! What follows for hands that served their sessions, as contracts without a body.
ghost use Rattle.std.specs.Prelude.{◌≡◌, ℕ, ◌<◌, List};
ghost use Rattle.program_defs.specs.declared.script.Script.{Script};
ghost use Rattle.weave_account.specs.declared.account.Account.{Account};
ghost use Rattle.weave_account.specs.GoesOn.{GoesOn};
ghost use Rattle.weave_account.specs.IsAccount.{IsAccount};
ghost use Rattle.seen_logs.specs.Seen.{VisitsOwnPrograms};
ghost use Rattle.weaver_core.specs.declared.client.Client.{Client};
ghost use Rattle.weaver_locks.specs.declared.hand.Hand.{Hand};
ghost use Rattle.weaver_locks.specs.declared.shared.Shared.{Shared};
ghost use Rattle.weaver_locks.specs.Closing.{seen_by_number};
ghost use Rattle.weaver_locks.specs.Locks.{hands_of, start_of};
ghost use Rattle.hands_account.specs.Runs.{IsRunByHands};
ghost use Rattle.weaver_locks.specs.Following.{VisitsItsOwnPrograms};
ghost use Rattle.weaver_locks.specs.Hands.{hand_number};
ghost use Rattle.weaver_workers.specs.Keeping.{KeepsClient};
ghost use Rattle.workers_account.specs.Phase.{IsClosedBy, IsPhaseStart};
ghost use Rattle.sessions_account.specs.Histories.{GoesThrough, HasSession, IsServedBy, MayBegin, Stands};

use crate::lower_laws::sessions_keep_their_laws;

/// A hand that has served its sessions so far may go on with each of them, whichever it served last: it may begin the
/// session's next request, or go on with the program that runs. It has visited for its own programs alone.
pub fn hands_go_on_with_each_session()
    ensures keeps { (shared : Shared) (script : Script) (upto : ℕ) (start : Account) (was : List Client)
        (hand_of : ℕ → ℕ) (from at : Stands) (path : List Stands) → IsPhaseStart script start shared was
        → MayBegin shared hand_of was from → GoesThrough shared script upto hand_of from path at
        → (session : ℕ) → HasSession hand_of (hand_number at.hand) session
        → KeepsClient shared script session at.hand (at.clients session) }
    ensures visits { (shared : Shared) (script : Script) (upto : ℕ) (start : Account) (was : List Client)
        (hand_of : ℕ → ℕ) (from at : Stands) (path : List Stands) → IsPhaseStart script start shared was
        → MayBegin shared hand_of was from → GoesThrough shared script upto hand_of from path at
        → VisitsItsOwnPrograms shared at.hand }
{
    sessions_keep_their_laws();
}

/// Each hand's visits are of programs that it began itself, as the closed logs have to be of hands.
pub fn hands_visit_for_their_sessions()
    ensures { (shared : Shared) (script : Script) (upto : ℕ) (start : Account) (was is : List Client)
        (hands : List Hand) → IsServedBy shared script upto start was is hands → (number : ℕ)
        → number < hands_of shared
        → VisitsOwnPrograms number (start_of shared) (seen_by_number hands number) }
{
    sessions_keep_their_laws();
}

/// Hands that serve their own sessions alone follow the script: each call is for a session's next request, at its
/// gatekeeper, with its operations or its walk, after the session's last stamp, or it carries clocks and messages. So
/// the closed logs with the sessions' logs are an account of the script, and go on from those at the start.
pub fn closed_logs_of_sessions_are_an_account()
    ensures follows { (shared : Shared) (script : Script) (upto : ℕ) (start : Account) (was is : List Client)
        (hands : List Hand) (closed : Account) → IsServedBy shared script upto start was is hands
        → IsClosedBy shared script start is hands closed
        → IsRunByHands script (hands_of shared) start (seen_by_number hands) closed }
    ensures account { (shared : Shared) (script : Script) (upto : ℕ) (start : Account) (was is : List Client)
        (hands : List Hand) (closed : Account) → IsServedBy shared script upto start was is hands
        → IsClosedBy shared script start is hands closed → IsAccount script closed }
    ensures goes_on { (shared : Shared) (script : Script) (upto : ℕ) (start : Account) (was is : List Client)
        (hands : List Hand) (closed : Account) → IsServedBy shared script upto start was is hands
        → IsClosedBy shared script start is hands closed → GoesOn start closed }
{
    sessions_keep_their_laws();
}
