//! What becomes of a message, and the ask that it brings.
ghost use Rattle.std.specs.Prelude.{◌≡◌, ◌<◌, map, length, IfOk};
ghost use Rattle.oracle_chain.specs.Chain.{asks_at};
ghost use Rattle.oracle_chain.specs.Calls.{delivery_of};
ghost use Rattle.oracle_chain.specs.Held.{replica_of, message_seen};

use crate::ask::{Ask, Delivered};
use crate::message::Sent;
use crate::replica::Replica;
use std::alloc::{AllocError, Global};
use weave_data::Copied;

/// What becomes of a message.
pub(crate) fn delivery(replicas: &[Replica], sent: &Sent) -> Delivered
    ensures { result ≡ delivery_of (map replica_of replicas.now) (message_seen (map replica_of replicas.now) sent.now) }
{
    let Some(addressee) = replicas.get(sent.addressee as usize) else {
        return Delivered::Gone;
    };
    if !addressee.is_live() {
        return Delivered::Gone;
    }
    let next = addressee.asks().len() as u64;
    if sent.position == next {
        return Delivered::Taken;
    }
    if sent.position < next {
        return Delivered::Repeat;
    }
    Delivered::Gap
}

/// A copy of the ask that a message brings.
pub(crate) fn kept_ask(alloc: Global, replicas: &[Replica], sent: &Sent) -> Result<Ask, AllocError>
    requires keeper { sent.now.kept_by < length replicas.now }
    requires kept { sent.now.position < length (asks_at (map replica_of replicas.now) sent.now.kept_by) }
    ensures { IfOk result (λ ask. ask ≡ (message_seen (map replica_of replicas.now) sent.now).ask) }
{
    let asks = replicas[sent.kept_by as usize].asks();
    let place = sent.position as usize;
    asks[place].copy(alloc)
}
