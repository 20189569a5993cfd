//! Which items are dropped.

use crate::time::Time;

/// Which items of a thing are dropped.
#[derive(Clone, Copy)]
pub enum Cut {
    /// Those of updates after this one.
    Newer { update: u64 },
    /// Those that no state from the oldest update on has. What they are part of is there since `since`, if it is there
    /// after the oldest update.
    Older { oldest: u64, since: Option<Time> },
}
