//! What follows from the definitions, as contracts without a body.
ghost use Rattle.std.specs.Prelude.{◌≡◌, ℕ, ◌≤◌, ◌<◌, List, take, length, IsSome};
ghost use Rattle.std.specs.List.{list_any};
ghost use Rattle.shard_queue.specs.Inbox.{Event, nothing_arrived, waiting_at, has_arrived, inbox_after, processed_in, is_arrival_of, AreOfSent, WaitingLaws};

use vector_stamp::Stamped;

/// A channel gives the sent list in number order, whatever arrives: in any order, repeatedly, or never.
/// A number has arrived exactly if some event brought it.
pub fn channels_give_what_was_sent<M: Stamped>()
    ensures in_order { (sent : List M) (events : List (Event M)) → AreOfSent sent events
        → processed_in M.stamp_of nothing_arrived events ≡ take (inbox_after M.stamp_of events).processed sent }
    ensures within { (sent : List M) (events : List (Event M)) → AreOfSent sent events
        → (inbox_after M.stamp_of events).processed ≤ length sent }
    ensures arrived { (number : ℕ) (events : List (Event M)) → 1 ≤ number
        → has_arrived number (inbox_after M.stamp_of events) ≡ list_any (is_arrival_of number) events }
{}

/// What waits under each number after an arrival, and after the head was processed, as one fact for proofs that take it
/// as a premise.
pub fn each_number_waits_by_itself<M: Stamped>()
    ensures { WaitingLaws M.stamp_of }
{}
