//! The limits on a script, and what of it they count.
ghost use Rattle.std.specs.Prelude.{◌≡◌};
ghost use Rattle.weave_script.specs.Limits.{over_limit};

use crate::fault::Cause;
use crate::read::partial_script::Counts;
use weave_data::{MOST_GETS, MOST_OPS, MOST_PROGRAMS, MOST_REQUESTS};

/// The most names of vertices of a script.
pub const MOST_VERTICES: usize = 10_000;
/// The most steps of a script.
pub const MOST_STEPS: usize = 100_000;
/// The greatest bound on the edges that a program goes through.
pub(crate) const MOST_BOUND: u32 = 1_000;
/// The greatest number of a notice or a message.
pub(crate) const MOST_NOTICE: u32 = 100_000;
/// The greatest number of an epoch.
pub(crate) const MOST_EPOCH: u32 = 1_000_000;

/// The cause of the first limit that is met.
pub(crate) fn over_limit(counts: Counts) -> Option<Cause>
    ensures { result ≡ over_limit counts }
{
    if counts.operations > MOST_OPS {
        Some(Cause::Operations)
    } else if counts.requests > MOST_REQUESTS {
        Some(Cause::Requests)
    } else if counts.programs > MOST_PROGRAMS {
        Some(Cause::Programs)
    } else if counts.gets > MOST_GETS {
        Some(Cause::Gets)
    } else if counts.vertices > MOST_VERTICES {
        Some(Cause::Vertices)
    } else if counts.steps > MOST_STEPS {
        Some(Cause::Steps)
    } else {
        None
    }
}
