//! Transactions that are kept, one after another.
ghost use Rattle.std.specs.Prelude.{◌≡◌, ◌≤◌, ◌<◌, ◌^◌, ◌∷◌, ◌++◌, [], false, length, IfOk, OnOk, IsSome, IsErrOf};
ghost use Rattle.weave_io.specs.Counts.{HasRisen};
ghost use Rattle.program_defs.specs.Works.{ops_of};
ghost use Rattle.store_journal.specs.Commits.{commit_of};
ghost use Rattle.store_journal.specs.Disk.{LeavesOnly};
ghost use Rattle.store_journal.specs.Standing.{IsAtRest, IsJournal};
ghost use Rattle.weave_keep.specs.KeepEnds.{IsJournalUpTo, pending_of};
ghost use Rattle.weave_keep.specs.KeptReports.{commits_of_request, committed_places, kept_replies, kept_reply, new_commits, report_of, says_committed};
ghost use Rattle.weave_keep.specs.Keepable.{AreKeptRequests, IsFresh, IsKeptRequest, IsOneFurther, SaysKept};

use graph_ops::Op;
use program_defs::{Request, Work};
use report_rules::{Reply, ReplyState, Report};
use std::alloc::{AllocError, Global};
use store_journal::{Disk, KeepFault, Kept, KeptStore};
use weave_data::Items;

/// Keeps the transactions of requests in their order, and reports them.
pub(crate) fn keep_requests<D: Disk>(
    alloc: Global,
    store: &mut KeptStore,
    disk: &mut D,
    requests: &[Request],
) -> Result<Report, KeepFault>
    requires fresh { IsFresh store.old }
    requires at_rest { IsAtRest commit_of store.old.commits store.old.place (D.seen disk.old) (D.images disk.old) }
    requires kept { AreKeptRequests requests.now }

    ensures report { IfOk result (λ report.
        report ≡ report_of (kept_replies store.old.epoch 0 store.old.commits requests.now)) }
    ensures commits { OnOk result (store.new.commits
        ≡ store.old.commits ++ new_commits store.old.epoch 0 store.old.commits requests.now) }
    ensures at_rest { OnOk result
        (IsAtRest commit_of store.new.commits store.new.place (D.seen disk.new) (D.images disk.new)) }

    // At any moment the disk has the commits from before and the first ones of those of the requests.
    ensures any_moment { IsSome (D.seen disk.old) → LeavesOnly D.moment D.images_since disk.old disk.new
        (IsJournalUpTo store.old.commits (new_commits store.old.epoch 0 store.old.commits requests.now)) }

    ensures failed { IsErrOf result KeepFault.Disk → HasRisen (D.faults disk.old) (D.faults disk.new) }
    ensures never_halted { ¬ IsErrOf result KeepFault.Halted }
{
    let mut replies = Items::new(alloc);
    let mut order = Items::new(alloc);
    for place in 0..count_of(requests) {
        let reply = match keep_request(alloc, store, disk, place, &requests[place as usize]) {
            Ok(reply) => reply,
            Err(fault) => return Err(fault),
        };
        match list(&mut replies, &mut order, reply) {
            Ok(()) => {}
            Err(_) => return Err(KeepFault::Memory),
        }
    }
    let pairs = Items::new(alloc);
    let answers = Items::new(alloc);
    Ok(Report {
        replies,
        pairs,
        order,
        answers,
    })
}

fn count_of(requests: &[Request]) -> u32
    requires { length requests.now < 2 ^ 32 }
    ensures { result ≡ length requests.now }
{
    requests.len() as u32
}

// Keeps the transaction of a request, and gives its reply.
fn keep_request<D: Disk>(
    alloc: Global,
    store: &mut KeptStore,
    disk: &mut D,
    place: u32,
    request: &Request,
) -> Result<Reply, KeepFault>
    requires on { store.old.is_halted ≡ false }
    requires at_rest { IsAtRest commit_of store.old.commits store.old.place (D.seen disk.old) (D.images disk.old) }
    requires counted { store.old.count ≡ place }
    requires kept { IsKeptRequest request.now }

    ensures reply { IfOk result (λ reply. reply ≡ kept_reply store.old.epoch place store.old.commits request.now) }
    ensures commits { OnOk result (store.new.commits
        ≡ store.old.commits ++ commits_of_request store.old.epoch place store.old.commits request.now) }
    ensures at_rest { OnOk result
        (IsAtRest commit_of store.new.commits store.new.place (D.seen disk.new) (D.images disk.new)) }
    ensures goes_on { OnOk result (IsOneFurther store.old store.new) }

    // At any moment the disk has the commits from before, and the one of the request may be pending.
    ensures any_moment { IsSome (D.seen disk.old) → LeavesOnly D.moment D.images_since disk.old disk.new
        (IsJournal commit_of store.old.commits
        (pending_of (commits_of_request store.old.epoch place store.old.commits request.now))) }

    ensures failed { IsErrOf result KeepFault.Disk → HasRisen (D.faults disk.old) (D.faults disk.new) }
    ensures never_halted { ¬ IsErrOf result KeepFault.Halted }
    ensures never_falls { D.faults disk.old ≤ D.faults disk.new }
    ensures told { IsSome (D.seen disk.old) → IsSome (D.seen disk.new) }
{
    match store.commit(alloc, disk, ops_of(&request.work)) {
        Ok(kept) => Ok(reply_of(place, kept)),
        Err(fault) => Err(fault),
    }
}

// The reply for what became of a transaction.
fn reply_of(place: u32, kept: Kept) -> Reply
    ensures { SaysKept place kept result }
{
    match kept {
        Kept::Committed {
            stamp,
            number,
            answers,
        } => Reply {
            request: place,
            stamp: Some(stamp),
            state: ReplyState::Committed {
                number,
                answers: Items::from_vec(answers),
            },
        },
        Kept::Refused {
            stamp,
            op,
            reason,
            at,
        } => Reply {
            request: place,
            stamp: Some(stamp),
            state: ReplyState::Refused { op, reason, at },
        },
    }
}

// Adds a reply, and its request to the order if it is committed.
fn list(replies: &mut Items<Reply>, order: &mut Items<u32>, reply: Reply) -> Result<(), AllocError>
    ensures replies { OnOk result (replies.new ≡ replies.old ++ reply ∷ []) }
    ensures order { OnOk result (order.new ≡ order.old ++ committed_places (reply ∷ [])) }
{
    if says_committed(&reply) {
        order.push(reply.request)?;
    }
    replies.push(reply)?;
    Ok(())
}

// The operations of a transaction.
fn ops_of(work: &Work) -> &[Op]
    ensures { result.now ≡ ops_of work.now }
{
    match work {
        Work::Change(ops) => ops.as_slice(),
        Work::Look(_) => &[],
    }
}

fn says_committed(reply: &Reply) -> bool
    ensures { result ≡ says_committed reply.now }
{
    matches!(reply.state, ReplyState::Committed { .. })
}
