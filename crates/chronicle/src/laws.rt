//! What can be relied on about logs, as contracts without a body.
ghost use Rattle.std.specs.Prelude.{◌≡◌, ◌⊎◌, ℕ, ◌<◌, ◌≤◌, ◌∷◌, ◌++◌, length, Contains};
ghost use mathlib.Core.List.{IsPrefix};
ghost use Rattle.chronicle.specs.Logs.{Log, entries_of, IsGrown};

/// In a log that has grown by entries of the passes, each entry is one of the start, or one of those with the number of
/// a pass. So what is true of the entries at the start, and of the own entries of each pass, is true of the whole log.
pub fn entries_come_from_passes<E>()
    ensures { (passes : ℕ) (start log : Log E) (entry : ℕ × E) → IsGrown passes start log → Contains log entry
        → Contains start entry ⊎ ((author : ℕ) × (author < passes) × Contains (entries_of author log) entry) }
{}

/// Where the entries of a closed log are. An entry past the start has the number of a pass. If what a pass has seen
/// begins the log and has all entries with the pass's number, each of them is at a place that the pass has seen.
pub fn own_entries_were_seen<E>()
    ensures authors { (passes : ℕ) (start log before after : Log E) (entry : ℕ × E) → IsGrown passes start log
        → log ≡ before ++ entry ∷ after → length start ≤ length before → entry.0 < passes }
    ensures places { (author : ℕ) (seen log before after : Log E) (entry : ℕ × E) → IsPrefix seen log
        → entries_of author log ≡ entries_of author seen → log ≡ before ++ entry ∷ after → entry.0 ≡ author
        → length before < length seen }
{}
