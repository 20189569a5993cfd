//! How all live replicas get the head's list and one ask more: all memory is taken before the first list changes.
ghost use Rattle.std.specs.Prelude.{◌≡◌, ◌≤◌, ◌<◌, ◌-◌, ◌^◌, ◌∷◌, ◌++◌, [], map, length, Contains, IfOk, OnOk, IsTrue};
ghost use Rattle.oracle_chain.specs.Held.{HeldView, replica_of, lacked_by, with_more, sent_from, sent_to, sent_to_each, HaveRoom, EachMayAppend};

use crate::ask::Ask;
use crate::message::Sent;
use crate::prepared::{Lacked, append_all, reserve_for};
use crate::replica::Replica;
use std::alloc::{AllocError, Global};

/// What each replica lacks of a list with a last ask. The list is at least as long as each live one's.
pub(crate) fn lacked_by_each(
    alloc: Global,
    replicas: &[Replica],
    list: &[Ask],
    last: &Ask,
) -> Result<Vec<Lacked>, AllocError>
    requires longest { (held : HeldView) → Contains replicas.now held → IsTrue held.live
        → length held.asks ≤ length list.now }
    ensures { IfOk result (λ lacked. lacked.items
        ≡ map (λ (held : HeldView). lacked_by (list.now ++ last.now ∷ []) (replica_of held)) replicas.now) }
{
    let mut lacked = Vec::with_capacity(alloc, replicas.len())?;
    for replica in replicas {
        lacked.push(lacked_by_one(alloc, replica, list, last)?)?;
    }
    Ok(lacked)
}

fn lacked_by_one(
    alloc: Global,
    replica: &Replica,
    list: &[Ask],
    last: &Ask,
) -> Result<Lacked, AllocError>
    requires longest { IsTrue replica.now.live → length replica.now.asks ≤ length list.now }
    ensures { IfOk result (λ lacked. lacked ≡ lacked_by (list.now ++ last.now ∷ []) (replica_of replica.now)) }
{
    if !replica.is_live() {
        return Ok(Lacked::none(alloc));
    }
    let (_, rest) = list.split_at(replica.asks().len());
    Lacked::of(alloc, rest, last)
}

/// The messages that bring each live replica but the head what it lacks of a list of that length. The head keeps it.
pub(crate) fn messages_to_each(
    alloc: Global,
    replicas: &[Replica],
    head: usize,
    many: u64,
) -> Result<Vec<Sent>, AllocError>
    requires few { length replicas.now < 2 ^ 32 }
    requires head { head < length replicas.now }
    ensures { IfOk result (λ sent. sent.items ≡ sent_to_each head many 0 (map replica_of replicas.now)) }
{
    let mut sent = Vec::new(alloc);
    for (number, replica) in replicas.iter().enumerate() {
        add_messages_to(&mut sent, replica, head as u32, number as u32, many)?;
    }
    Ok(sent)
}

fn add_messages_to(
    sent: &mut Vec<Sent>,
    replica: &Replica,
    head: u32,
    number: u32,
    many: u64,
) -> Result<(), AllocError>
    ensures { OnOk result (sent.new.items ≡ sent.old.items ++ sent_to head many number (replica_of replica.now)) }
{
    if !replica.is_live() {
        return Ok(());
    }
    if number == head {
        return Ok(());
    }
    add_messages(sent, head, number, replica.asks().len() as u64, many)?;
    Ok(())
}

fn add_messages(
    sent: &mut Vec<Sent>,
    kept_by: u32,
    addressee: u32,
    from: u64,
    many: u64,
) -> Result<(), AllocError>
    ensures { OnOk result (sent.new.items ≡ sent.old.items ++ sent_from kept_by addressee from (many - from)) }
{
    for position in from..many {
        sent.push(Sent {
            addressee,
            position,
            kept_by,
        })?;
    }
    Ok(())
}

/// Takes the memory that each replica needs for what it lacks.
pub(crate) fn reserve_in_each(replicas: &mut [Replica], lacked: &[Lacked]) -> Result<(), AllocError>
    requires a_list_each { length lacked.now ≡ length replicas.old }
    ensures seen { map replica_of replicas.new ≡ map replica_of replicas.old }
    ensures room { OnOk result (HaveRoom replicas.new lacked.now) }
{
    for (number, asks) in lacked.iter().enumerate() {
        reserve_for(&mut replicas[number], asks)?;
    }
    Ok(())
}

/// Each replica appends what it lacks. There is room for all: it takes no memory.
pub(crate) fn append_to_each(replicas: &mut [Replica], lacked: Vec<Lacked>)
    requires a_list_each { length lacked.items ≡ length replicas.old }
    requires room { HaveRoom replicas.old lacked.items }
    requires may_append { EachMayAppend replicas.old lacked.items }
    ensures { map replica_of replicas.new ≡ with_more (map replica_of replicas.old) lacked.items }
{
    for (number, asks) in lacked.into_iter().enumerate() {
        append_all(&mut replicas[number], asks);
    }
}
