//! A call under the conditions that the store and the oracle ask for.
ghost use Rattle.std.specs.Prelude.{◌≡◌, ◌≢◌, All, IsTrue};
ghost use Rattle.vector_stamp.specs.declared.clock.Stamp.{Stamp};
ghost use Rattle.vector_stamp.specs.Order.{id_of};
ghost use Rattle.weave_entries.specs.StoreReplay.{judged_by};
ghost use Rattle.backing_store.specs.Commits.{stamps_judged};
ghost use Rattle.machine_tests.specs.Covers.{HasAllStamps};

use crate::test_judge::id_of_stamp;
use backing_store::Store;
use backing_store::laws::what_is_asked_is_kept;
use graph_ops::Op;
use std::alloc::{AllocError, Global};
use std::process::Abort;
use vector_stamp::laws::parts_and_unions_are_coherent;
use vector_stamp::{EventId, Judge, Stamp, are_coherent};
use weave_entries::{StoreDeed, StoreEntry, Verdict};

fn id_in(entry: &StoreEntry) -> EventId
    ensures { result ≡ id_of (judged_by entry.now.author entry.now.deed).stamp }
{
    let StoreDeed::Judged { stamp, .. } = &entry.deed;
    id_of_stamp(stamp)
}

// Whether the stamp's id is of no judged transaction.
fn are_unjudged(log: &[StoreEntry], stamp: &Stamp) -> bool
    ensures { IsTrue result → All (λ (judged : Stamp). id_of judged ≢ id_of stamp.now) (stamps_judged log.now) }
{
    let Some((entry, entries)) = log.split_first() else {
        return true;
    };
    id_in(entry) != id_of_stamp(stamp) && are_unjudged(entries, stamp)
}

/// Commits under the condition of `commit`. All stamps so far are kept.
pub fn try_commit<J: Judge>(
    rt: &impl Abort,
    alloc: Global,
    store: &mut Store,
    judge: &mut J,
    stamps: &mut Vec<Stamp>,
    author: u32,
    request: u32,
    stamp: Stamp,
    ops: &[Op],
) -> Result<Verdict, AllocError>
    requires { HasAllStamps stamps.old.items store.old (J.known judge.old) }
    ensures { HasAllStamps stamps.new.items store.new (J.known judge.new) }
{
    parts_and_unions_are_coherent();
    what_is_asked_is_kept();
    stamps.push(stamp).expect(rt, "memory");
    let all = stamps.as_slice();
    if !are_coherent(all) {
        panic!(rt; "not coherent");
    }
    if !are_unjudged(store.log(), &stamp) {
        panic!(rt; "the stamp was judged");
    }
    if ops.len() > 1000 {
        panic!(rt; "too many operations");
    }
    store.commit(alloc, author, request, stamp, ops, judge)
}
