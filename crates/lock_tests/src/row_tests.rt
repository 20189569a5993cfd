//! A row of three locks, whose machines keep notes of each other.
ghost use Rattle.std.specs.Prelude.{◌≡◌, ◌≢◌, ◌<◌, ◌∷◌, [], ◌++◌, ℕ, All, IfOk, OnOk, OnErr, length, map, slice_index_or, vec_len};
ghost use Rattle.chronicle.specs.Locks.{lock_of};
ghost use Rattle.chronicle.specs.Passes.{IsReady, lock_noted};
ghost use Rattle.lock_row.specs.Rows.{names_of, AreReady};
ghost use Rattle.lock_row.specs.Meetings.{CanMeet};

use chronicle::{Chronicle, Machine, Note, Pass};
use lock_row::{Bare, deal_hand, fill_row, meet_others, note_row, open_row, reserve_row};
use std::alloc::{AllocError, Global};
use std::sync::Wait;
use std::test::Fail;

// A machine with an empty log and no notes yet.
#[derive(Drop)]
struct Empty {
    byte: u8,
}

impl Bare for Empty {
    type Entry = u64;

    type Context = ();

    ghost use Rattle.std.specs.Prelude.{[]};

    ghost frame = { λ _ _ names. names };

    ghost log = { λ _. [] };
}

// Numbers with their authors, and a note of each lock of the row.
#[derive(Drop)]
struct Noted {
    entries: Vec<(u32, u64)>,
    notes: Vec<Note<u64>>,
}

impl Machine for Noted {
    type Entry = u64;

    ghost use Rattle.std.specs.Prelude.{map};
    ghost use Rattle.chronicle.specs.Passes.{lock_noted};

    ghost frame = { λ n. map lock_noted n.notes.items };

    ghost log = { λ n. n.entries.items };
}

impl Noted {
    fn meet(&mut self, locks: &[Chronicle<Noted>], passes: &mut [Pass<u64>], place: usize)
        requires passes { length passes.old ≡ length locks.now }
        requires notes { length self.old.notes.items ≡ length locks.now }
        requires can { CanMeet locks.now passes.old self.old.notes.items place }
        ensures entries { self.new.entries ≡ self.old.entries }
        ensures names { map lock_noted self.new.notes.items ≡ map lock_noted self.old.notes.items }
        ensures passes { length passes.new ≡ length passes.old }
        ensures pass { (d : _) → slice_index_or passes.new place d ≡ slice_index_or passes.old place d }
        ensures ready { (k : ℕ) (c : _) (p : _) → k < length locks.now → k ≢ place
            → IsReady (lock_of (slice_index_or locks.now k c)) (slice_index_or passes.new k p) }
    {
        meet_others(locks, passes, self.notes.as_mut_slice(), place);
    }

    fn add(&mut self, author: u32, value: u64) -> Result<(), AllocError>
        ensures notes { self.new.notes ≡ self.old.notes }
        ensures ok { OnOk result (self.new.entries.items ≡ self.old.entries.items ++ (author, value) ∷ []) }
        ensures err { OnErr result (self.new.entries.items ≡ self.old.entries.items) }
    {
        self.entries.push((author, value))?;
        Ok(())
    }

    fn has(&self, expected: &[(u32, u64)]) -> bool {
        self.entries.as_slice() == expected
    }
}

// In a hold the notes of the other locks meet the hand's passes, and a number is added. Is the log then as expected?
fn add_at<R: Wait>(
    rt: &R,
    locks: &[Chronicle<Noted>],
    hand: &mut [Pass<u64>],
    place: usize,
    value: u64,
    expected: &[(u32, u64)],
) -> bool
    requires place { place < length locks.now }
    requires frames { (k : ℕ) (c : _) → k < length locks.now
        → (lock_of (slice_index_or locks.now k c)).frame ≡ names_of locks.now }
    requires hand { length hand.old ≡ length locks.now }
    requires ready { AreReady locks.now hand.old }
    ensures hand { length hand.new ≡ length hand.old }
    ensures ready { AreReady locks.now hand.new }
{
    let author = hand[place].number();
    let mut held = locks[place].enter(rt, &mut hand[place]);
    let state = held.state();
    state.meet(locks, hand, place);
    let added = state.add(author, value).is_ok();
    let same = state.has(expected);
    held.leave(&mut hand[place]);
    added & same
}

// A machine for each lock, with notes of what the hand has seen.
fn machines_for(
    alloc: Global,
    locks: &[Chronicle<Noted>],
    hand: &mut [Pass<u64>],
) -> Result<Vec<Noted>, AllocError>
    requires hand { length hand.old ≡ length locks.now }
    requires ready { AreReady locks.now hand.old }
    ensures count { IfOk result (λ r. vec_len r ≡ length locks.now) }
    ensures names { IfOk result (λ r. All (λ m. map lock_noted m.notes.items ≡ names_of locks.now) r.items) }
    ensures empty { IfOk result (λ r. All (λ m. m.entries.items ≡ []) r.items) }
    ensures hand { length hand.new ≡ length hand.old }
    ensures ready { AreReady locks.now hand.new }
{
    let mut machines = Vec::with_capacity(alloc, locks.len())?;
    for _place in 0..locks.len() {
        let notes = note_row(alloc, locks, hand)?;
        machines.push_reserved(Noted {
            entries: Vec::new(alloc),
            notes,
        });
    }
    Ok(machines)
}

// Three locks, and two hands.
struct Row {
    locks: Vec<Chronicle<Noted>>,
    first: Vec<Pass<u64>>,
    second: Vec<Pass<u64>>,
    ghost count: { length locks.items ≡ 3 },
    ghost frames: { (k : ℕ) (c : _) → k < length locks.items
        → (lock_of (slice_index_or locks.items k c)).frame ≡ names_of locks.items },
    ghost first_count: { length first.items ≡ 3 },
    ghost second_count: { length second.items ≡ 3 },
    ghost first_ready: { AreReady locks.items first.items },
    ghost second_ready: { AreReady locks.items second.items },
}

fn row_of_three(alloc: Global) -> Result<Row, AllocError> {
    let (mut locks, parts) = reserve_row::<Noted>(alloc, 3, 2)?;
    let machines = [Empty { byte: 0 }, Empty { byte: 0 }, Empty { byte: 0 }];
    let (mut passes, vacants) = open_row(alloc, &mut locks, parts, &machines, &())?;
    let second = deal_hand(alloc, &locks, &mut passes, 1)?;
    let mut first = deal_hand(alloc, &locks, &mut passes, 0)?;
    let machines = machines_for(alloc, &locks, first.as_mut_slice())?;
    fill_row(&mut locks, vacants, machines);
    Ok(Row {
        locks,
        first,
        second,
    })
}

/// In each lock both hands add a number, and find what the other has added.
#[test]
fn three_locks_note_each_other(rt: HostRuntime) -> Result<(), Fail> {
    let Row {
        locks,
        mut first,
        mut second,
    } = row_of_three(rt.alloc())?;
    let locks = locks.as_slice();
    let first = first.as_mut_slice();
    let second = second.as_mut_slice();
    assert!(rt; add_at(&rt, locks, first, 0, 5, &[(0, 5)]));
    assert!(rt; add_at(&rt, locks, second, 0, 6, &[(0, 5), (1, 6)]));
    assert!(rt; add_at(&rt, locks, second, 1, 7, &[(1, 7)]));
    assert!(rt; add_at(&rt, locks, first, 1, 8, &[(1, 7), (0, 8)]));
    assert!(rt; add_at(&rt, locks, first, 2, 9, &[(0, 9)]));
    assert!(rt; add_at(&rt, locks, second, 2, 10, &[(0, 9), (1, 10)]));
    Ok(())
}
