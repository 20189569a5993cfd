//! A change of one replica of a chain.
ghost use Rattle.std.specs.Prelude.{◌≡◌, ◌<◌, ◌∷◌, ◌++◌, map, length, slice_set, false, OnOk, OnErr};
ghost use Rattle.std.specs.List.{flat_map};
ghost use Rattle.vector_stamp.specs.Coherence.{AreCoherent};
ghost use Rattle.oracle_chain.specs.Replay.{ask_stamps};
ghost use Rattle.oracle_chain.specs.Chain.{asks_at};
ghost use Rattle.oracle_chain.specs.Calls.{with_ask};
ghost use Rattle.oracle_chain.specs.IsReplicaChain.{IsAsk};
ghost use Rattle.oracle_chain.specs.Held.{replica_of};

use crate::ask::Ask;
use crate::replica::{Replica, append_one};
use std::alloc::{AllocError, Global};

/// The replica of this number takes the memory for one more ask, and appends it.
pub(crate) fn append_at(
    alloc: Global,
    replicas: &mut [Replica],
    number: usize,
    ask: Ask,
) -> Result<(), AllocError>
    requires within { number < length replicas.old }
    requires is_ask { IsAsk ask }
    requires coherent { AreCoherent (ask.later ∷ ask.earlier
        ++ flat_map ask_stamps (asks_at (map replica_of replicas.old) number)) }
    ensures appended { OnOk result (map replica_of replicas.new ≡ with_ask (map replica_of replicas.old) number ask) }
    ensures as_before { OnErr result (map replica_of replicas.new ≡ map replica_of replicas.old) }
{
    append_one(alloc, &mut replicas[number], ask)?;
    Ok(())
}

/// The replica of this number stops.
pub(crate) fn stop_at(replicas: &mut [Replica], number: usize)
    requires { number < length replicas.old }
    ensures { map replica_of replicas.new ≡ slice_set (map replica_of replicas.old) number
        (record { live = false; asks = asks_at (map replica_of replicas.old) number }) }
{
    replicas[number].stop();
}
