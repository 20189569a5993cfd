//! Clocks, stamps and their order (Weaver, PVLDB 9(11) 2016; vector clocks, Fidge and Mattern 1988).
ghost use Rattle.std.specs.Prelude.{◌≡◌, ◌<◌, ◌↔◌, ◌^◌, ◌&&◌, nat_lt, IsTrue};
ghost use Rattle.std.specs.List.{list_all};
ghost use Rattle.weave_data.specs.Limits.{most_gates};
ghost use Rattle.vector_stamp.specs.Order.{counts_at_most};
ghost use Rattle.vector_stamp.specs.Clocks.{greater_counts, lesser_counts};

use std::alloc::{AllocError, Global};
use std::cmp::Ordering;
use weave_data::{Copied, MOST_GATES};

/// The number of counts of a clock.
pub const COUNTS: usize = MOST_GATES as usize;

/// An epoch, and eight counts, one for each gatekeeper. Those past the number of gatekeepers stay 0.
#[derive(Clone, Copy, Debug, PartialEq, Eq)]
pub struct Clock {
    pub epoch: u64,
    pub counts: [u64; COUNTS],
}

/// A clock with its home gatekeeper, below 8. It is of one event: a transaction, a program or an empty message.
#[derive(Clone, Copy, Debug, PartialEq, Eq)]
pub struct Stamp {
    pub home: u32,
    pub clock: Clock,
}

/// What identifies an event: its home gatekeeper, and that one's epoch and own count.
#[derive(Clone, Copy, Debug, PartialEq, Eq)]
pub struct EventId {
    pub home: u32,
    pub epoch: u64,
    pub count: u64,
}

/// How one clock compares to another.
#[derive(Clone, Copy, Debug, PartialEq, Eq)]
pub enum Relation {
    Before,
    After,
    /// Neither is before the other. Equal clocks are unordered too.
    Unordered,
}

impl Copied for Clock {
    ghost use Rattle.std.specs.Prelude.{◌≡◌, IfOk};

    fn copy(&self, _alloc: Global) -> Result<Self, AllocError>
        ensures copied { IfOk result (λ copied. copied ≡ self.now) }
        ensures ok { result ≡ Ok self.now }
    {
        Ok(*self)
    }
}

impl Copied for Stamp {
    ghost use Rattle.std.specs.Prelude.{◌≡◌, IfOk};

    fn copy(&self, _alloc: Global) -> Result<Self, AllocError>
        ensures copied { IfOk result (λ copied. copied ≡ self.now) }
        ensures ok { result ≡ Ok self.now }
    {
        Ok(*self)
    }
}

impl Clock {
    ghost use Rattle.vector_stamp.specs.Order.{is_before, is_at_most, clocks_unordered, count_of, has_64_bits};
    ghost use Rattle.vector_stamp.specs.Clocks.{start_clock, first_clock, clock_after_tick, clock_after_hearing, meet_of};

    /// The clock of a gatekeeper that has made no event: epoch 0, and all counts 0.
    pub fn start() -> Clock
        ensures { result ≡ start_clock }
    {
        Clock {
            epoch: 0,
            counts: [0; COUNTS],
        }
    }

    /// How it compares to the other clock. It is before each clock of a higher epoch.
    /// It is before one of its epoch if each of its counts is at most the other's and the counts differ.
    #[tactic(auto, using(crate::proofs::Counts::same_from_both))]
    pub fn compare(&self, other: &Clock) -> Relation
        ensures before { (result ≡ Relation.Before) ↔ IsTrue (is_before self.now other.now) }
        ensures after { (result ≡ Relation.After) ↔ IsTrue (is_before other.now self.now) }
        ensures unordered { (result ≡ Relation.Unordered) ↔ IsTrue (clocks_unordered self.now other.now) }
    {
        if self.epoch < other.epoch {
            return Relation::Before;
        }
        if other.epoch < self.epoch {
            return Relation::After;
        }
        match (
            at_most_each(&self.counts, &other.counts),
            at_most_each(&other.counts, &self.counts),
        ) {
            (true, false) => Relation::Before,
            (false, true) => Relation::After,
            (true, true) | (false, false) => Relation::Unordered,
        }
    }

    /// Whether it is before the other clock, or equal to it.
    pub fn at_most(&self, other: &Clock) -> bool
        ensures { result ≡ is_at_most self.now other.now }
    {
        self.compare(other) == Relation::Before || self == other
    }

    /// The greatest clock that is at most both: the lower one of two epochs, the lesser counts of one.
    pub fn meet(&self, other: &Clock) -> Clock
        ensures { result ≡ meet_of self.now other.now }
    {
        match self.epoch.cmp(&other.epoch) {
            Ordering::Less => *self,
            Ordering::Greater => *other,
            Ordering::Equal => Clock {
                epoch: self.epoch,
                counts: lesser_of(&self.counts, &other.counts),
            },
        }
    }

    /// Takes in a clock that the gatekeeper at home hears: nothing of a lower epoch, each greater count of its own one,
    /// the epoch and all counts of a higher one.
    /// Its own count rises by its own events alone, so it stays within an epoch and is 0 in a higher one.
    pub fn hear(&mut self, home: u32, other: &Clock)
        requires { home < most_gates }
        ensures { self.new ≡ clock_after_hearing home self.old other.now }
    {
        match self.epoch.cmp(&other.epoch) {
            Ordering::Greater => {}
            Ordering::Less => {
                *self = *other;
                self.counts[home as usize] = 0;
            }
            Ordering::Equal => {
                let own = self.counts[home as usize];
                self.counts = greater_of(&self.counts, &other.counts);
                self.counts[home as usize] = own;
            }
        }
    }

    /// Its epoch and its counts have 64 bits. The call does nothing: the type says it, and contracts see it by this
    /// clause.
    pub fn shows_64_bits(self)
        ensures { IsTrue (has_64_bits self) }
    {
        let Clock { epoch, counts } = self;
        show_64_bits(epoch, counts.as_slice());
    }

    /// Begins a later epoch, in which nothing is counted yet.
    pub fn raise(&mut self, epoch: u64)
        requires { self.old.epoch < epoch }
        ensures { self.new ≡ first_clock epoch }
    {
        self.epoch = epoch;
        self.counts = [0; COUNTS];
    }

    /// Counts one more event of the gatekeeper at home, and gives the stamp of that event.
    pub fn tick(&mut self, home: u32) -> Stamp
        requires home { home < most_gates }
        requires room { count_of home self.old < u64.MAX }
        ensures clock { self.new ≡ clock_after_tick home self.old }
        ensures stamp { result ≡ record { home = home; clock = self.new } }
    {
        self.counts[home as usize] += 1;
        Stamp { home, clock: *self }
    }
}

impl Stamp {
    ghost use Rattle.vector_stamp.specs.Order.{id_of, own_count, stamp_before, unordered, are_apart, id_before};

    /// What identifies its event.
    pub fn id(&self) -> EventId
        requires { self.now.home < most_gates }
        ensures { result ≡ id_of self.now }
    {
        EventId {
            home: self.home,
            epoch: self.clock.epoch,
            count: self.clock.counts[self.home as usize],
        }
    }

    /// Its home's own count; 0 if the home is not below 8.
    pub fn own_count(&self) -> u64
        ensures { result ≡ own_count self.now }
    {
        match self.clock.counts.get(self.home as usize) {
            Some(count) => *count,
            None => 0,
        }
    }

    /// Whether it is before the other stamp. Stamps compare by their clocks.
    pub fn is_before(&self, other: &Stamp) -> bool
        ensures { result ≡ stamp_before self.now other.now }
    {
        self.clock.compare(&other.clock) == Relation::Before
    }

    /// Whether neither stamp is before the other, as of equal clocks.
    pub fn is_unordered(&self, other: &Stamp) -> bool
        ensures { result ≡ unordered self.now other.now }
    {
        self.clock.compare(&other.clock) == Relation::Unordered
    }

    /// Whether the stamps can be of two events: those of one home are ordered as their epochs, then their own counts.
    pub fn is_apart(&self, other: &Stamp) -> bool
        ensures { result ≡ are_apart self.now other.now }
    {
        self.home != other.home
            || (self.has_lesser_id(other) && self.is_before(other))
            || (other.has_lesser_id(self) && other.is_before(self))
    }

    // Whether its epoch, then its own count, is below the other's.
    pub(crate) fn has_lesser_id(&self, other: &Stamp) -> bool
        ensures { result ≡ id_before self.now other.now }
    {
        self.clock.epoch < other.clock.epoch
            || (self.clock.epoch == other.clock.epoch && self.own_count() < other.own_count())
    }
}

// Whether every count of the first is at most that of the second.
fn at_most_each(counts: &[u64; COUNTS], others: &[u64; COUNTS]) -> bool
    ensures { result ≡ counts_at_most counts.now others.now }
{
    counts
        .iter()
        .zip(others)
        .all(|(count, other)| count <= other)
}

// The greater of the two counts of each gatekeeper.
fn greater_of(counts: &[u64; COUNTS], others: &[u64; COUNTS]) -> [u64; COUNTS]
    ensures { result ≡ greater_counts counts.now others.now }
{
    let mut greater = [0; COUNTS];
    for gate in 0..8 {
        greater[gate] = counts[gate].max(others[gate]);
    }
    greater
}

// The lesser of the two counts of each gatekeeper.
fn lesser_of(counts: &[u64; COUNTS], others: &[u64; COUNTS]) -> [u64; COUNTS]
    ensures { result ≡ lesser_counts counts.now others.now }
{
    let mut lesser = [0; COUNTS];
    for gate in 0..8 {
        lesser[gate] = counts[gate].min(others[gate]);
    }
    lesser
}

// The numbers of a clock have 64 bits.
fn show_64_bits(epoch: u64, counts: &[u64])
    ensures { IsTrue (nat_lt epoch (2 ^ 64) && list_all (λ count. nat_lt count (2 ^ 64)) counts.now) }
{
    let _ = epoch;
    let _ = counts;
}
