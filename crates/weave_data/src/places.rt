//! How many pairs a map has places for.
ghost use Rattle.std.specs.Prelude.{◌≡◌, ◌+◌, ◌<◌, ◌^◌};
ghost use Rattle.weave_data.specs.Changes.{places};

/// The places of a map of `pairs` pairs: few of them are spare, and seldom another number.
pub(crate) fn places(pairs: usize) -> usize
    requires { pairs + 64 < 2 ^ 64 }
    ensures { result ≡ places pairs }
{
    if pairs <= 16 {
        (pairs + 3) / 4 * 4
    } else {
        (pairs + 63) / 64 * 64
    }
}
