//! What the locks keep for the time when they are closed.
ghost use Rattle.std.specs.Prelude.{◌≡◌, IfOk, length, vec_len};
ghost use Rattle.weaver_locks.specs.Kept.{HasEnds, HasRooms};
ghost use Rattle.weaver_locks.specs.Rooms.{AreRooms};

use crate::ends::Ends;
use crate::rooms::Rooms;
use chronicle::Pass;
use std::alloc::{AllocError, Global};

// A room for `count` passes at each of this many places.
fn room_row<E>(alloc: Global, places: u32, count: u32) -> Result<Vec<Vec<Pass<E>>>, AllocError>
    ensures places { IfOk result (λ r. vec_len r ≡ places) }
    ensures rooms { IfOk result (λ r. AreRooms count r.items) }
{
    let mut rooms = Vec::with_capacity(alloc, places as usize)?;
    for _place in 0..places {
        let room = Vec::with_capacity(alloc, count as usize)?;
        rooms.push_reserved(room);
    }
    Ok(rooms)
}

// Rooms for this many passes of each lock.
pub(crate) fn make_rooms(
    alloc: Global,
    gates: u32,
    shards: u32,
    passes: u32,
) -> Result<Rooms, AllocError>
    ensures { IfOk result (λ rooms. HasRooms gates shards passes rooms) }
{
    let gates = room_row(alloc, gates, passes)?;
    let store = Vec::with_capacity(alloc, passes as usize)?;
    let oracle = Vec::with_capacity(alloc, passes as usize)?;
    let shards = room_row(alloc, shards, passes)?;
    Ok(Rooms {
        gates,
        store,
        oracle,
        shards,
    })
}

// Space for this many machines.
pub(crate) fn make_ends(alloc: Global, gates: u32, shards: u32) -> Result<Ends, AllocError>
    ensures { IfOk result (λ ends. HasEnds gates shards ends) }
{
    let noted_gates = Vec::with_capacity(alloc, gates as usize)?;
    let gates = Vec::with_capacity(alloc, gates as usize)?;
    let noted_shards = Vec::with_capacity(alloc, shards as usize)?;
    let shards = Vec::with_capacity(alloc, shards as usize)?;
    Ok(Ends {
        noted_gates,
        gates,
        noted_shards,
        shards,
    })
}
