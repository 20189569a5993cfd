//! The sending end of a channel.
ghost use Rattle.std.specs.Prelude.{◌≡◌, ◌≤◌, ◌+◌, ◌^◌, ◌<◌, [], ◌∷◌, ◌++◌, map, length, IsOk, IfOk, IfErr, OnOk, OnErr, option_copied};
ghost use Rattle.shard_queue.specs.Outbox.{StampsRise, IsAfterLast, sent_as};

use std::alloc::{AllocError, Global};
use std::marker::Model;
use vector_stamp::Stamped;
use vector_stamp::laws::stamps_are_ordered;

/// What was sent on a channel, in order and numbered from 1. Contracts see the list, and `spare`: how many more can be
/// sent without taking memory.
#[derive(Drop)]
pub struct Outbox<M: Stamped> {
    sent: Vec<M>,
}

impl<M: Stamped> Model for Outbox<M> {
    ghost use Rattle.std.specs.Prelude.{◌-◌, map, vec_len, vec_capacity};
    ghost use Rattle.shard_queue.specs.Outbox.{Channel, StampsRise};

    ghost Value = { Channel M };

    ghost view = { λ o. record { sent = o.sent.items; spare = vec_capacity o.sent - vec_len o.sent } };

    ghost invariant = { λ o. StampsRise (map M.stamp_of o.sent.items) };
}

impl<M: Stamped> Outbox<M> {
    /// Nothing is sent yet. It takes no memory.
    pub fn new(alloc: Global) -> Self
        ensures { result.sent ≡ [] }
    {
        Outbox {
            sent: Vec::new(alloc),
        }
    }

    /// Takes the room for one more message. The one error is out of memory, and then the channel is as before.
    pub fn reserve(&mut self, _alloc: Global) -> Result<(), AllocError>
        ensures sent { self.new.sent ≡ self.old.sent }
        ensures room { OnOk result (1 ≤ self.new.spare) }
        ensures kept { self.old.spare ≤ self.new.spare }
        ensures refused { OnErr result (self.new ≡ self.old) }
    {
        self.sent.reserve(1)?;
        Ok(())
    }

    /// Sends a message, and answers its number. If it is out of memory it gives the message back, and the channel is as
    /// before. If there is room it can't fail.
    pub fn push(&mut self, _alloc: Global, message: M) -> Result<u64, M>
        requires { IsAfterLast (M.stamp_of message) (map M.stamp_of self.old.sent) }
        ensures sent { OnOk result (self.new.sent ≡ self.old.sent ++ message ∷ []) }
        ensures number { IfOk result (λ number. number ≡ length self.old.sent + 1) }
        ensures rising { StampsRise (map M.stamp_of self.new.sent) }
        ensures spare { self.old.spare ≤ self.new.spare + 1 }
        ensures room { 1 ≤ self.old.spare → IsOk result }
        ensures returned { IfErr result (λ given. given ≡ message) }
        ensures refused { OnErr result (self.new ≡ self.old) }
    {
        stamps_are_ordered();
        if self.sent.reserve(1).is_err() {
            return Err(message);
        }
        match self.sent.push(message) {
            Ok(()) => Ok(self.sent.len() as u64),
            Err(refused) => Err(refused.value),
        }
    }

    /// The message of this number, or `None` if it was not sent.
    pub fn get(&self, number: u64) -> Option<&M>
        ensures { option_copied result ≡ sent_as number self.now.sent }
    {
        if number == 0 {
            return None;
        }
        self.sent.get((number - 1) as usize)
    }

    /// How many messages were sent: the number of the last one.
    pub fn count(&self) -> u64
        ensures count { result ≡ length self.now.sent }
        ensures small { result < 2 ^ 63 }
        ensures rising { StampsRise (map M.stamp_of self.now.sent) }
    {
        self.sent.len() as u64
    }
}
