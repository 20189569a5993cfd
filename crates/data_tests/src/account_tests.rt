use crate::names::named;
use graph_ops::Op;
use std::alloc::Global;
use std::process::Abort;
use vector_stamp::{Clock, Stamp};
use weave_account::Account;
use weave_data::{Copied, Items};
use weave_entries::{
    GateDeed, GateEntry, OracleDeed, OracleEntry, SessionDeed, SessionEntry, ShardDeed, ShardEntry,
    StoreDeed, StoreEntry, Verdict,
};

fn one<T: Drop>(rt: &impl Abort, alloc: Global, item: T) -> Items<T> {
    let mut items = Items::new(alloc);
    items.push(item).expect(rt, "memory");
    items
}

fn stamp(home: u32, counts: [u64; 8]) -> Stamp {
    Stamp {
        home,
        clock: Clock { epoch: 0, counts },
    }
}

// A transaction that made `v` conflicts with request 9.
fn judged(rt: &impl Abort, alloc: Global) -> StoreEntry {
    let v = named(rt, b"v");
    let deed = StoreDeed::Judged {
        request: 4,
        stamp: stamp(0, [1, 0, 0, 0, 0, 0, 0, 0]),
        ops: one(rt, alloc, Op::Create { v }),
        asked: one(rt, alloc, v),
        verdict: Verdict::Conflict {
            vertex: v,
            newer: 9,
        },
    };
    StoreEntry { author: 2, deed }
}

fn settled(rt: &impl Abort, alloc: Global) -> OracleEntry {
    let deed = OracleDeed::Settled {
        earlier: one(rt, alloc, stamp(0, [1, 0, 0, 0, 0, 0, 0, 0])),
        later: stamp(1, [0, 1, 0, 0, 0, 0, 0, 0]),
        places: one(rt, alloc, 0),
    };
    OracleEntry { author: 3, deed }
}

fn raised(rt: &impl Abort, alloc: Global) -> Items<GateEntry> {
    let deed = GateDeed::Raised { epoch: 6 };
    one(rt, alloc, GateEntry { author: 1, deed })
}

fn applied(rt: &impl Abort, alloc: Global) -> Items<ShardEntry> {
    let deed = ShardDeed::Applied { gate: 1, number: 7 };
    one(rt, alloc, ShardEntry { author: 4, deed })
}

fn replied(rt: &impl Abort, alloc: Global) -> Items<SessionEntry> {
    let deed = SessionDeed::Replied { request: 8 };
    one(rt, alloc, SessionEntry { author: 5, deed })
}

// Logs of one entry each, by the authors 1 to 5.
fn account(rt: &impl Abort, alloc: Global) -> Account {
    Account {
        gates: one(rt, alloc, raised(rt, alloc)),
        store: one(rt, alloc, judged(rt, alloc)),
        oracle: one(rt, alloc, settled(rt, alloc)),
        shards: one(rt, alloc, applied(rt, alloc)),
        sessions: one(rt, alloc, replied(rt, alloc)),
    }
}

// The authors of the last entries: of the last gatekeeper, the store, the oracle, the last shard and the last session.
fn authors(account: &Account) -> Option<[u32; 5]> {
    let gate = account.gates.as_slice().last()?.as_slice().last()?;
    let judged = account.store.as_slice().last()?;
    let settled = account.oracle.as_slice().last()?;
    let shard = account.shards.as_slice().last()?.as_slice().last()?;
    let session = account.sessions.as_slice().last()?.as_slice().last()?;
    Some([
        gate.author,
        judged.author,
        settled.author,
        shard.author,
        session.author,
    ])
}

// A copy has the same logs.
#[test]
fn copies_are_equal(rt: HostRuntime) {
    let logs = account(&rt, rt.alloc());
    let copied = logs.copy(rt.alloc()).expect(&rt, "memory");
    assert!(rt; authors(&copied) == Some([1, 2, 3, 4, 5]));
}
