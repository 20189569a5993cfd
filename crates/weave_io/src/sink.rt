//! Where bytes go.
ghost use Rattle.std.specs.Prelude.{◌≡◌, ◌≤◌, ℕ, List, Option, length, take, IfOk, OnErr};
ghost use Rattle.weave_io.specs.Counts.{HasRisen};
ghost use Rattle.weave_io.specs.Stall.{IsStall};
ghost use Rattle.weave_io.specs.Told.{Appends};

use crate::faults::Failed;

/// Takes bytes, in pieces.
pub trait Sink {
    // The bytes taken so far, if they are known.
    ghost written: { Self → Option (List ℕ) };

    // A count of faults, which never falls and rises when a call fails.
    ghost faults: { Self → ℕ };

    // A count of stalls, which never falls and rises only when a call takes nothing of a piece that isn't empty.
    ghost stalls: { Self → ℕ };

    /// Takes bytes from the start of `piece`, and answers how many.
    fn put(&mut self, piece: &[u8]) -> Result<usize, Failed>
        ensures within { IfOk result (λ n. n ≤ length piece.now) }
        ensures appended { IfOk result (λ n.
            Appends (written self.old) (written self.new) (take n piece.now)) }
        ensures failed { OnErr result (HasRisen (faults self.old) (faults self.new)) }
        ensures unchanged { OnErr result (written self.new ≡ written self.old) }
        ensures stalled { IsStall result piece.now → HasRisen (stalls self.old) (stalls self.new) }
        ensures went_on { ¬ IsStall result piece.now → stalls self.new ≡ stalls self.old }
        ensures faults_never_fall { faults self.old ≤ faults self.new }
        ensures stalls_never_fall { stalls self.old ≤ stalls self.new };
}
