//! Where bytes come from.
ghost use Rattle.std.specs.Prelude.{◌≡◌, ◌<◌, ◌≤◌, ℕ, List, [], Option, Ok, length, take, IfOk, OnErr};
ghost use Rattle.weave_io.specs.Counts.{HasRisen};
ghost use Rattle.weave_io.specs.Told.{Takes, Tells};

use crate::faults::Failed;

/// Gives bytes, in pieces.
pub trait Source {
    // The bytes still to come, if they are known.
    ghost left: { Self → Option (List ℕ) };

    // A count of faults, which never falls and rises when a call fails.
    ghost faults: { Self → ℕ };

    /// Puts the next bytes at the start of `buf`, and answers how many. For a `buf` that isn't empty, none come exactly
    /// at the end.
    fn take(&mut self, buf: &mut [u8]) -> Result<usize, Failed>
        ensures within { IfOk result (λ n. n ≤ length buf.new) }
        ensures taken { IfOk result (λ n. Takes (left self.old) (left self.new) (take n buf.new)) }
        ensures end { result ≡ Ok 0 → 0 < length buf.new → Tells (left self.new) [] }
        ensures failed { OnErr result (HasRisen (faults self.old) (faults self.new)) }
        ensures unchanged { OnErr result (left self.new ≡ left self.old) }
        ensures never_falls { faults self.old ≤ faults self.new };
}
