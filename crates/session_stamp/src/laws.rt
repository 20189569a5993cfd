//! What can be relied on about the logs of sessions, as a contract without a body.
ghost use Rattle.std.specs.Prelude.{◌≡◌, ℕ, List, [], ◌∷◌, ◌++◌};
ghost use Rattle.weave_entries.specs.declared.session_log.SessionEntry.{SessionEntry};
ghost use Rattle.weave_entries.specs.SessionReplay.{session_start, session_of, session_after, FitsSession, IsSessionLog};

/// A log with one more entry leaves the session as that entry does, and keeps the rules if the entry is right.
pub fn a_log_goes_on()
    ensures at_first { (requests : List ℕ) → session_of requests [] ≡ session_start requests }
    ensures replay { (requests : List ℕ) (log : List SessionEntry) (entry : SessionEntry)
        → session_of requests (log ++ entry ∷ []) ≡ session_after (session_of requests log) entry.deed }
    ensures right_at_first { (number : ℕ) (requests : List ℕ) → IsSessionLog number requests [] }
    ensures right { (number : ℕ) (requests : List ℕ) (log : List SessionEntry) (entry : SessionEntry)
        → IsSessionLog number requests log → entry.author ≡ number → FitsSession (session_of requests log) entry.deed
        → IsSessionLog number requests (log ++ entry ∷ []) }
    ensures right_before { (number : ℕ) (requests : List ℕ) (log rest : List SessionEntry)
        → IsSessionLog number requests (log ++ rest) → IsSessionLog number requests log }
{}
