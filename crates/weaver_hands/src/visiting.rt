//! The next read of a program.
ghost use Rattle.std.specs.Prelude.{IsSome};
ghost use Rattle.path_program.specs.AnyPrograms.{next_read};
ghost use Rattle.weaver_locks.specs.Hands.{IsHand};
ghost use Rattle.weaver_locks.specs.Locks.{gate_count, shard_count};
ghost use Rattle.weaver_hands.specs.Programs.{IsRunning, VisitsAs};

use crate::fault::{HandFault, of_visit};
use crate::lower_laws::{hands_keep_their_laws, the_crates_below_keep_their_laws};
use node_program::NodeProgram;
use program_defs::laws::order_of_reads_is_free;
use shard_lock::laws::own_programs_are_running;
use std::alloc::Global;
use std::sync::Wait;
use weaver_core::Running;
use weaver_locks::{Hand, Shared};

/// A program of the hand that is running reads its next vertex. All memory of the program is taken before the hold. It
/// may wait.
pub fn visit<R: Wait>(
    rt: &R,
    alloc: Global,
    hand: &mut Hand,
    shared: &Shared,
    running: &mut Running,
) -> Result<(), HandFault>
    requires hand { IsHand shared.now hand.old }
    requires next { IsSome (next_read running.old.walk) }
    requires running { IsRunning shared.now hand.old running.old }
    ensures hand { IsHand shared.now hand.new }
    ensures done { VisitsAs (gate_count shared.now) (shard_count shared.now) hand.old hand.new running.old running.new
        result }
    ensures running { IsRunning shared.now hand.new running.new }
{
    hands_keep_their_laws();
    order_of_reads_is_free();
    own_programs_are_running();
    the_crates_below_keep_their_laws();
    let Some(vertex) = running.walk.next_vertex() else {
        return Ok(());
    };
    running.walk.ready()?;
    let shard = vertex.shard(shared.shards());
    let read = shared.visit(
        rt,
        alloc,
        hand,
        shard,
        running.request,
        running.stamp,
        vertex,
    );
    match read {
        Ok(state) => {
            running.walk.see(state);
            Ok(())
        }
        Err(fault) => Err(of_visit(shard, fault)),
    }
}
