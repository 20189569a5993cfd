//! The items that operations add.
ghost use Rattle.std.specs.Prelude.{◌≡◌, ◌≤◌, ◌<◌, ◌+◌, ℕ, Bool, cond, false, length, IsTrue, OnOk, OnErr};
ghost use Rattle.graph_ops.specs.VertexOps.{state_after_ops, none_refused};
ghost use Rattle.version_parts.specs.Counts.{count_updates, changes, changes_of};
ghost use Rattle.version_parts.specs.InOrder.{ListsInOrder};
ghost use Rattle.version_parts.specs.Ordered.{AreBefore, KeysRise};
ghost use Rattle.version_parts.specs.Placed.{AllInLists, AreUpTo};
ghost use Rattle.version_parts.specs.States.{state_at, with_op};

use crate::lists::{Lists, add_edge_item};
use crate::maps::add_item;
use crate::time::Time;
use crate::track::Item;
use graph_ops::Op;
use std::alloc::{AllocError, Global};

/// How many items operations add: one for each operation other than `get`.
pub(crate) fn changes(ops: &[Op]) -> usize
    ensures { result ≡ changes ops.now }
{
    let mut count = 0;
    for op in ops {
        count += changes_of(op);
    }
    count
}

fn changes_of(op: &Op) -> usize
    ensures value { result ≡ changes_of op.now }
    ensures most { result ≤ 1 }
{
    if op.is_get() {
        return 0;
    }
    1
}

/// Adds the items of an update. After the one error, out of memory, some of them may be there.
pub(crate) fn add_ops(
    lists: &mut Lists,
    alloc: Global,
    update: u64,
    ops: &[Op],
) -> Result<(), AllocError>
    requires before { AllInLists (λ time. time.update < update) lists.old }
    requires order { ListsInOrder lists.old }
    requires numbered { 1 ≤ update }
    requires passes { IsTrue (none_refused ops.now (state_at update lists.old)) }
    ensures state { OnOk result (state_at update lists.new ≡ state_after_ops ops.now (state_at update lists.old)) }
    ensures earlier { (earlier : ℕ) → earlier < update → state_at earlier lists.new ≡ state_at earlier lists.old }
    ensures within { AreUpTo update lists.new }
    ensures order { ListsInOrder lists.new }
    ensures counts { OnOk result ((test : ℕ → Bool) → count_updates test lists.new
        ≡ count_updates test lists.old + cond (test update) (changes ops.now) 0) }
    ensures others { (test : ℕ → Bool) → test update ≡ false
        → count_updates test lists.new ≡ count_updates test lists.old }
{
    for place in 0..ops.len() {
        let time = Time {
            update,
            place: place as u64,
        };
        add_op(lists, alloc, time, &ops[place])?;
    }
    Ok(())
}

// Adds the item of an operation. The one error is out of memory, and then the lists are as before.
fn add_op(lists: &mut Lists, alloc: Global, time: Time, op: &Op) -> Result<(), AllocError>
    requires { AreBefore time lists.old }
    ensures ok { OnOk result (lists.new ≡ with_op time op.now lists.old) }
    ensures err { OnErr result (lists.new ≡ lists.old) }
    ensures rising { KeysRise op.now lists.old }
{
    match *op {
        Op::Create { .. } => {
            let value = Some(());
            lists.presence.add(Item { time, value })
        }
        Op::Delete { .. } => lists.presence.add(Item { time, value: None }),
        Op::Set { key, value, .. } => {
            let value = Some(value);
            add_item(&mut lists.props, alloc, key, Item { time, value })
        }
        Op::Unset { key, .. } => add_item(&mut lists.props, alloc, key, Item { time, value: None }),
        Op::Link { edge, target, .. } => {
            let value = Some(target);
            add_edge_item(&mut lists.edges, alloc, edge, None, Item { time, value })
        }
        Op::Join { edge, target, .. } => {
            let value = Some(target);
            add_edge_item(&mut lists.edges, alloc, edge, None, Item { time, value })
        }
        Op::Unlink { edge, .. } => {
            add_edge_item(
                &mut lists.edges,
                alloc,
                edge,
                None,
                Item { time, value: None },
            )
        }
        Op::Tag {
            edge,
            key,
            value,
            ..
        } => {
            let value = Some(value);
            add_edge_item(
                &mut lists.edges,
                alloc,
                edge,
                Some(key),
                Item { time, value },
            )
        }
        Op::Untag { edge, key, .. } => {
            add_edge_item(
                &mut lists.edges,
                alloc,
                edge,
                Some(key),
                Item { time, value: None },
            )
        }
        Op::Get { .. } => Ok(()),
    }
}
