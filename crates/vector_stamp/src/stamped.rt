//! What has a stamp.
ghost use Rattle.std.specs.Prelude.{◌≡◌};
ghost use Rattle.vector_stamp.specs.declared.clock.Stamp.{Stamp};

use crate::clock::Stamp;

/// What has a stamp, as a message that waits in a queue.
pub trait Stamped {
    /// Its stamp.
    ghost stamp_of: { Self → Stamp };

    /// Its stamp.
    fn stamp(&self) -> Stamp
        ensures { result ≡ stamp_of self.now };
}
