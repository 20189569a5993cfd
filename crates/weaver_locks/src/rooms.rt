//! Room for the passes that come back when the locks are closed.
ghost use Rattle.std.specs.Prelude.{◌≡◌, length, map, All, vec_len};
ghost use Rattle.weaver_locks.specs.Rooms.{AllTake, AreRooms, HaveGathered, HaveSpace, HasGathered, IsRoom};

use crate::hand::Hand;
use chronicle::Pass;
use weave_entries::{GateDeed, OracleDeed, ShardDeed, StoreDeed};

/// A list for the passes of each lock, empty and with space for those of all hands.
#[derive(Drop)]
pub(crate) struct Rooms {
    pub(crate) gates: Vec<Vec<Pass<GateDeed>>>,
    pub(crate) store: Vec<Pass<StoreDeed>>,
    pub(crate) oracle: Vec<Pass<OracleDeed>>,
    pub(crate) shards: Vec<Vec<Pass<ShardDeed>>>,
}

// Puts each of these passes at the end of the list at its place.
fn put_row<E>(rooms: &mut Vec<Vec<Pass<E>>>, passes: Vec<Pass<E>>)
    requires count { vec_len passes ≡ length rooms.old.items }
    requires space { HaveSpace rooms.old.items }
    ensures count { length rooms.new.items ≡ length rooms.old.items }
    ensures taken { AllTake passes.items rooms.old.items rooms.new.items }
{
    let mut place = 0;
    for pass in passes {
        rooms[place].push_reserved(pass);
        place += 1;
    }
}

// Puts all passes of these hands into the rooms of their locks.
pub(crate) fn gather(rooms: &mut Rooms, hands: Vec<Hand>)
    requires gate_count { All (λ hand. length hand.gates.items ≡ length rooms.old.gates.items) hands.items }
    requires shard_count { All (λ hand. length hand.shards.items ≡ length rooms.old.shards.items) hands.items }
    requires gates { AreRooms (vec_len hands) rooms.old.gates.items }
    requires store { IsRoom (vec_len hands) rooms.old.store }
    requires oracle { IsRoom (vec_len hands) rooms.old.oracle }
    requires shards { AreRooms (vec_len hands) rooms.old.shards.items }
    ensures gate_count { length rooms.new.gates.items ≡ length rooms.old.gates.items }
    ensures shard_count { length rooms.new.shards.items ≡ length rooms.old.shards.items }
    ensures gates { HaveGathered (λ hand. hand.gates.items) (vec_len hands) hands.items rooms.new.gates.items }
    ensures store { rooms.new.store.items ≡ map (λ hand. hand.store) hands.items }
    ensures oracle { rooms.new.oracle.items ≡ map (λ hand. hand.oracle) hands.items }
    ensures shards { HaveGathered (λ hand. hand.shards.items) (vec_len hands) hands.items rooms.new.shards.items }
{
    for hand in hands {
        let Hand {
            gates,
            store,
            oracle,
            shards,
        } = hand;
        put_row(&mut rooms.gates, gates);
        rooms.store.push_reserved(store);
        rooms.oracle.push_reserved(oracle);
        put_row(&mut rooms.shards, shards);
    }
}
