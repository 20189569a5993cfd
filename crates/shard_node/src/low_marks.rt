//! The low marks that bound a collection.
ghost use Rattle.std.specs.Prelude.{◌≡◌, All, None, IfOk, vec_len};
ghost use Rattle.weave_entries.specs.ShardReplay.{meet_if, meet_of_all};

use std::alloc::{AllocError, Global};
use vector_stamp::Clock;

/// A place for the low mark of each gatekeeper, of which nothing was processed yet.
pub(crate) fn no_low_marks(alloc: Global, gates: u32) -> Result<Vec<Option<Clock>>, AllocError>
    ensures count { IfOk result (λ lows. vec_len lows ≡ gates) }
    ensures none { IfOk result (λ lows. All (λ low. low ≡ None) lows.items) }
{
    let mut lows = Vec::new(alloc);
    for _gate in 0..gates {
        lows.push(None)?;
    }
    Ok(lows)
}

/// The meet of these low marks, if all are there and there is at least one.
pub(crate) fn meet_of_all(lows: &[Option<Clock>]) -> Option<Clock>
    ensures { result ≡ meet_of_all lows.now }
{
    let Some((first, others)) = lows.split_first() else {
        return None;
    };
    let mut meet = *first;
    for low in others {
        meet = meet_if(&meet, low);
    }
    meet
}

// The meet of two low marks, if both are there.
fn meet_if(a: &Option<Clock>, b: &Option<Clock>) -> Option<Clock>
    ensures { result ≡ meet_if a.now b.now }
{
    let Some(a) = a else {
        return None;
    };
    let Some(b) = b else {
        return None;
    };
    Some(a.meet(b))
}
