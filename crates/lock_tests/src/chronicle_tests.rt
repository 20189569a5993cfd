//! A lock whose machine is a tally: what its authors added, notes, and a hold in a hold.
ghost use Rattle.std.specs.Prelude.{◌<◌};

use chronicle::Chronicle;
use chronicle_keeper::{
    Noted, Owner, Tally, add, add_to_both, five_noted, tallied, total, with_note,
};
use std::alloc::Global;
use std::process::Abort;
use std::sync::Wait;
use std::test::Fail;
use std::thread::Threads;

// At most four authors each add the numbers below `count`. Each entry is there once, each author's in rising order. The
// authors' next numbers, the count of entries and their sum are then these.
fn check_tally<R: Threads + Wait + Sync + Abort>(
    rt: &R,
    alloc: Global,
    authors: u32,
    count: u64,
    ends: [u64; 4],
    entries: usize,
    sum: u64,
)
    requires { 0 < authors }
{
    let tally = tallied(rt, alloc, authors, count).expect(rt, "memory");
    let mut next = [0u64; 4];
    for (author, value) in tally.entries() {
        let author = *author as usize;
        assert!(rt; author < 4 && next[author] == *value);
        next[author] = value.saturating_add(1);
    }
    assert!(rt; next == ends && tally.entries().len() == entries && tally.total() == sum);
}

/// Two authors, who seldom wait for each other.
#[test]
fn each_entry_is_there_once(rt: HostRuntime) {
    check_tally(&rt, rt.alloc(), 2, 100, [100, 100, 0, 0], 200, 9900);
}

/// Four authors with 20,000 entries each, who wait for one another again and again, ten times over: with a `leave` that
/// wakes nobody, an author sleeps for good in most of them, and the test doesn't end.
#[test]
fn who_waits_is_woken(rt: HostRuntime) {
    for _ in 0..10 {
        check_tally(&rt, rt.alloc(), 4, 20_000, [20_000; 4], 80_000, 799_960_000);
    }
}

#[test]
fn a_note_meets_its_pass(rt: HostRuntime) -> Result<(), Fail> {
    let like = Tally::new(rt.alloc());
    let (mut shared, mut passes, vacant) = Chronicle::<Tally>::new(rt.alloc(), &like, 1)?;
    shared.fill(vacant, like);
    let noted = five_noted(&rt, &shared, &mut passes[0]);
    assert!(rt; noted.is_ok());
    assert!(rt; total(&rt, &shared, &mut passes[0]) == 10);
    Ok(())
}

#[test]
fn a_hold_lies_in_a_hold(rt: HostRuntime) -> Result<(), Fail> {
    let like = Tally::new(rt.alloc());
    let (mut outer, mut outer_passes, vacant) = Chronicle::<Tally>::new(rt.alloc(), &like, 1)?;
    outer.fill(vacant, Tally::new(rt.alloc()));
    let (mut inner, mut inner_passes, vacant) = Chronicle::<Tally>::new(rt.alloc(), &like, 1)?;
    inner.fill(vacant, Tally::new(rt.alloc()));
    let (Some(outer_pass), Some(inner_pass)) = (outer_passes.pop(), inner_passes.pop()) else {
        unreachable!()
    };
    let mut owner = Owner {
        outer: outer_pass,
        inner: inner_pass,
    };
    assert!(rt; add_to_both(&rt, &outer, &inner, &mut owner, 3).is_ok());
    assert!(rt; add_to_both(&rt, &outer, &inner, &mut owner, 4).is_ok());
    assert!(rt; total(&rt, &outer, &mut owner.outer) == 7);
    assert!(rt; total(&rt, &inner, &mut owner.inner) == 7);
    Ok(())
}

#[test]
fn a_note_lies_behind_another_lock(rt: HostRuntime) -> Result<(), Fail> {
    let like = Tally::new(rt.alloc());
    let (mut first, mut passes, vacant) = Chronicle::<Tally>::new(rt.alloc(), &like, 1)?;
    first.fill(vacant, Tally::new(rt.alloc()));
    assert!(rt; add(&rt, &first, &mut passes[0], 5).is_ok());
    let noted = Noted {
        tally: Tally::new(rt.alloc()),
        note: first.note(&mut passes[0]),
    };
    let (second, mut seconds) = with_note(rt.alloc(), &like, noted)?;
    let Some(mut pass) = seconds.pop() else {
        unreachable!()
    };
    let mut held = second.enter(&rt, &mut pass);
    let total = held.state().tally.total();
    held.leave(&mut pass);
    assert!(rt; total == 0);
    Ok(())
}
