//! A row: a store over a judge, and calls whose answers are compared on the spot.
ghost use Rattle.std.specs.Prelude.{◌≡◌, ◌∷◌, [], Contains};
ghost use Rattle.vector_stamp.specs.declared.clock.Stamp.{Stamp};
ghost use Rattle.machine_tests.specs.Covers.{IsAmong};

use crate::settled::is_entry;
use crate::store_calls::try_commit;
use crate::store_verdicts::{
    is_committed, is_conflict, is_judgement, is_last_by, is_last_judged, is_refused,
};
use crate::test_judge::{TestJudge, full_judge};
use backing_store::Store;
use graph_ops::{Op, Reason};
use std::alloc::Global;
use std::marker::Model;
use std::process::Abort;
use timeline_oracle::Oracle;
use vector_stamp::{Judge, Stamp};
use weave_data::Name;
use weave_entries::Verdict;

/// A store with its judge, the author of its calls, and stamps among which are all that either of them knows.
#[derive(Drop)]
pub struct Row<J: Judge> {
    alloc: Global,
    author: u32,
    store: Store,
    judge: J,
    stamps: Vec<Stamp>,
}

impl<J: Judge> Model for Row<J> {
    ghost use Rattle.std.specs.Prelude.{List};
    ghost use Rattle.vector_stamp.specs.declared.clock.Stamp.{Stamp};
    ghost use Rattle.machine_tests.specs.Covers.{HasAllStamps};

    ghost Value = { List Stamp };

    ghost view = { λ r. r.stamps.items };

    ghost invariant = { λ r. HasAllStamps r.stamps.items r.store (J.known r.judge) };
}

/// A store that has judged nothing, over this judge, which knows none but these stamps.
fn row_over<J: Judge>(alloc: Global, author: u32, judge: J, stamps: Vec<Stamp>) -> Row<J>
    requires { IsAmong (J.known judge) stamps.items }
{
    Row {
        alloc,
        author,
        store: Store::new(alloc),
        judge,
        stamps,
    }
}

/// A new store over a new oracle. This author makes the calls.
pub fn oracle_row(alloc: Global, author: u32) -> Row<Oracle> {
    row_over(alloc, author, Oracle::new(alloc), Vec::new(alloc))
}

/// A new store over a judge of one pair, or of none, which adds none. This author makes the calls.
pub fn judge_row(
    rt: &impl Abort,
    alloc: Global,
    author: u32,
    pair: Option<(Stamp, Stamp)>,
) -> Row<TestJudge> {
    let (mut pairs, mut stamps) = (Vec::new(alloc), Vec::new(alloc));
    if let Some((earlier, later)) = pair {
        pairs.push((earlier, later)).expect(rt, "memory");
        stamps.push(earlier).expect(rt, "memory");
        stamps.push(later).expect(rt, "memory");
    }
    row_over(alloc, author, full_judge(pairs), stamps)
}

impl<J: Judge + Drop> Row<J> {
    /// This author makes the calls that follow.
    pub fn by(&mut self, author: u32) {
        self.author = author;
    }

    // The verdict of a transaction, which has an entry of its author.
    fn judged(&mut self, rt: &impl Abort, request: u32, stamp: Stamp, ops: &[Op]) -> Verdict {
        let verdict = try_commit(
            rt,
            self.alloc,
            &mut self.store,
            &mut self.judge,
            &mut self.stamps,
            self.author,
            request,
            stamp,
            ops,
        )
        .expect(rt, "memory");
        if !is_last_by(self.store.log(), self.author) {
            panic!(rt; "another author");
        }
        verdict
    }

    /// The transaction is judged, whatever its verdict.
    pub fn judges(&mut self, rt: &impl Abort, request: u32, stamp: Stamp, ops: &[Op]) {
        let _ = self.judged(rt, request, stamp, ops);
    }

    /// The transaction is the commit of this number, with these counts, and its `get`s read records with that many
    /// properties, or none.
    pub fn commits(
        &mut self,
        rt: &impl Abort,
        request: u32,
        stamp: Stamp,
        ops: &[Op],
        number: u64,
        counts: &[(Name, u64)],
        got: &[(u32, Option<usize>)],
    ) {
        let verdict = self.judged(rt, request, stamp, ops);
        if !is_committed(&verdict, number, counts, got) {
            panic!(rt; "not this commit");
        }
    }

    /// A transaction that makes a vertex is the commit of this number, the first that names it.
    pub fn creates(&mut self, rt: &impl Abort, request: u32, stamp: Stamp, v: Name, number: u64) {
        self.commits(
            rt,
            request,
            stamp,
            &[Op::Create { v }],
            number,
            &[(v, 0)],
            &[],
        );
    }

    /// The transaction conflicts at this vertex with the commit of that request.
    pub fn conflicts(
        &mut self,
        rt: &impl Abort,
        request: u32,
        stamp: Stamp,
        ops: &[Op],
        at: Name,
        with: u32,
    ) {
        let verdict = self.judged(rt, request, stamp, ops);
        if !is_conflict(&verdict, at, with) {
            panic!(rt; "not this conflict");
        }
    }

    /// The operation of this number refuses the transaction, for this reason, after that many commits.
    pub fn refuses(
        &mut self,
        rt: &impl Abort,
        request: u32,
        stamp: Stamp,
        ops: &[Op],
        op: u32,
        reason: Reason,
        commits: u64,
    ) {
        let verdict = self.judged(rt, request, stamp, ops);
        if !is_refused(&verdict, op, reason, commits) {
            panic!(rt; "not this refusal");
        }
    }

    /// The judge is out of memory: nothing is judged.
    pub fn is_out_of_memory(&mut self, rt: &impl Abort, request: u32, stamp: Stamp, ops: &[Op]) {
        let entries = self.store.log().len();
        let full = try_commit(
            rt,
            self.alloc,
            &mut self.store,
            &mut self.judge,
            &mut self.stamps,
            self.author,
            request,
            stamp,
            ops,
        );
        if full.is_ok() || self.store.log().len() != entries {
            panic!(rt; "judged");
        }
    }

    /// The last entry is of this request, and asked of these vertices.
    pub fn asked(&self, rt: &impl Abort, request: u32, vertices: &[Name]) {
        if !is_last_judged(self.store.log(), request, vertices) {
            panic!(rt; "another entry");
        }
    }

    /// The store has made this many commits, and the vertex has that many properties, or is absent.
    pub fn has(&self, rt: &impl Abort, commits: u64, v: Name, props: Option<usize>) {
        if self.store.commits() != commits || self.props(v) != props {
            panic!(rt; "another state");
        }
    }

    /// How many properties the vertex has, or `None` if it is absent.
    fn props(&self, v: Name) -> Option<usize> {
        let Some(record) = self.store.state(v) else {
            return None;
        };
        Some(record.props.len())
    }

    /// The request has no verdict and no entry.
    pub fn was_not_judged(&self, rt: &impl Abort, request: u32) {
        if self.store.verdict_of(request).is_some() || self.store.judged(request).is_some() {
            panic!(rt; "judged");
        }
    }

    /// The entry of this request was asked of these vertices.
    pub fn was_asked(&self, rt: &impl Abort, request: u32, vertices: &[Name]) {
        let Some(entry) = self.store.judged(request) else {
            panic!(rt; "not judged");
        };
        if !is_judgement(entry, request, vertices) {
            panic!(rt; "another entry");
        }
    }
}

/// The oracle's log has this many entries. The last one is of a call by this author, which put these events before this
/// one, and added pairs at these places.
pub fn put_last(
    rt: &impl Abort,
    row: &Row<Oracle>,
    entries: usize,
    author: u32,
    earlier: &[Stamp],
    later: Stamp,
    places: &[u32],
) {
    let Some(last) = row.judge.log().last() else {
        panic!(rt; "the oracle has no log");
    };
    if row.judge.log().len() != entries || !is_entry(last, author, earlier, &later, places) {
        panic!(rt; "another log of the oracle");
    }
}

/// The oracle's log is the entry of one such call.
pub fn put(
    rt: &impl Abort,
    row: &Row<Oracle>,
    author: u32,
    earlier: &[Stamp],
    later: Stamp,
    places: &[u32],
) {
    put_last(rt, row, 1, author, earlier, later, places);
}

/// The oracle has put nothing.
pub fn put_nothing(rt: &impl Abort, row: &Row<Oracle>) {
    if !row.judge.log().is_empty() {
        panic!(rt; "the oracle has a log");
    }
}

/// The judge was called this many times.
pub fn was_called(rt: &impl Abort, row: &Row<TestJudge>, calls: u32) {
    if row.judge.calls != calls {
        panic!(rt; "another number of calls");
    }
}

/// The same store over a new oracle.
pub fn over_oracle(row: Row<TestJudge>) -> Row<Oracle> {
    Row {
        alloc: row.alloc,
        author: row.author,
        store: row.store,
        judge: Oracle::new(row.alloc),
        stamps: row.stamps,
    }
}
