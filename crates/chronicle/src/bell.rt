//! How those who wait at a lock sleep and are woken. It isn't part of the lock's table: no seat makes a step for it,
//! and no public clause speaks of it. Whoever is woken tries again.
ghost use Rattle.std.specs.Prelude.{◌≡◌};

use crate::rung::{Reading, Rung};
use crate::view::View;
use atomic_table::Seat;
use std::sync::Wait;
use std::sync::atomic::{AtomicU64, Ordering};

/// The bell of a lock. One of those who wait is called at a time, so who leaves need not call the system if nobody
/// waits, or if somebody was called and has not tried again since.
///
/// Who waits reads how often the bell rang, then takes back a call, then tries, and then sleeps if the bell has not
/// rung since. So a call that was taken back was answered by this try, and one that comes later rings after that
/// reading.
#[derive(Drop)]
pub(crate) struct Bell {
    // How many wait.
    waiting: AtomicU64,
    // 1 from a call until somebody who waits tries again, otherwise 0.
    called: AtomicU64,
    // How often the bell rang. Those who wait sleep on it.
    rings: AtomicU64,
}

impl Bell {
    pub(crate) fn new() -> Bell {
        Bell {
            waiting: AtomicU64::new(0),
            called: AtomicU64::new(0),
            rings: AtomicU64::new(0),
        }
    }

    /// A try failed. Who waits already, and knows how often the bell had rung, sleeps until it rings once more; else it
    /// waits from now on. It is to try again: how often the bell has rung.
    pub(crate) fn wait<R: Wait>(&self, rt: &R, rung: Option<Rung>) -> Rung {
        match rung {
            Some(rung) => rung.sleep(rt, &self.rings),
            None => {
                self.waiting.fetch_add(1, Ordering::SeqCst);
            }
        }
        Reading::of(&self.rings).take_back(&self.called)
    }

    /// A try succeeded. Whoever waited doesn't wait any more.
    pub(crate) fn end(&self, rung: Option<Rung>) {
        if rung.is_some() {
            self.waiting.fetch_sub(1, Ordering::SeqCst);
        }
    }

    /// Calls one of those who wait, unless one was called that has not tried again. The caller has freed the lock: its
    /// seat has no turn any more.
    pub(crate) fn ring<S, E>(&self, _seat: &Seat<S, View<E>>)
        requires { _seat.now.me.0.turn ≡ 0 }
    {
        if self.waiting.load(Ordering::SeqCst) > 0 && self.called.swap(1, Ordering::SeqCst) == 0 {
            self.rings.fetch_add(1, Ordering::SeqCst);
            self.rings.wake_one();
        }
    }
}
