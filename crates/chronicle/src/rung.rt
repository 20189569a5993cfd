//! How often a bell rang, as one who waits reads it. The types keep the order: whoever sleeps has read how often it
//! rang, and has then taken back a call.
use std::sync::Wait;
use std::sync::atomic::{AtomicU64, Ordering};

/// How often the bell had rung. A call is still to be taken back.
pub(crate) struct Reading {
    rings: u64,
}

/// How often the bell had rung before a call was taken back. On this alone one can sleep.
#[derive(Drop)]
pub(crate) struct Rung {
    rings: u64,
}

impl Reading {
    pub(crate) fn of(rings: &AtomicU64) -> Reading {
        Reading {
            rings: rings.load(Ordering::SeqCst),
        }
    }

    /// The bell may call again from now on.
    pub(crate) fn take_back(self, called: &AtomicU64) -> Rung {
        let Reading { rings } = self;
        called.store(0, Ordering::SeqCst);
        Rung { rings }
    }
}

impl Rung {
    /// Sleeps until the bell rings, unless it has rung since the reading.
    pub(crate) fn sleep<R: Wait>(self, rt: &R, rings: &AtomicU64) {
        rings.park(rt, (self.rings % 4_294_967_296) as u32);
    }
}
