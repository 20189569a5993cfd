//! Calls that are meant to fail.
ghost use Rattle.std.specs.Prelude.{◌↔◌, ◌+◌, IsTrue, Contains};

/// Whether the call after the first `calls` ones is to fail: its number, counted from 1, is in the list.
pub fn fails_next(fails: &[u64], calls: u64) -> bool
    ensures { IsTrue result ↔ Contains fails.now (calls + 1) }
{
    fails
        .iter()
        .any(|number| *number >= 1 && *number - 1 == calls)
}
