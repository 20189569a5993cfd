//! A number for each session that a script may have.
ghost use Rattle.std.specs.Prelude.{◌≡◌, ℕ, ◌<◌, ◌≤◌, IsTrue, length};
ghost use Rattle.order_witness.specs.Heads.{item};

use std::alloc::{AllocError, Global};
use std::marker::Model;
use weave_data::MOST_SESSIONS;

/// A number for each session below 64. Contracts see the numbers.
#[derive(Drop)]
pub struct BySession {
    numbers: Vec<u64>,
}

impl Model for BySession {
    ghost use Rattle.std.specs.Prelude.{ℕ, List};

    ghost Value = { List ℕ };

    ghost view = { λ b. b.numbers.items };
}

impl BySession {
    /// This number for each session.
    pub fn new(alloc: Global, number: u64) -> Result<BySession, AllocError> {
        Ok(BySession {
            numbers: vec![in alloc; number; MOST_SESSIONS as usize]?,
        })
    }

    /// Whether the session's number is there, and at most this.
    pub fn is_at_most(&self, session: u32, number: u64) -> bool
        ensures { IsTrue result → (session < length self.now) × (item self.now session ≤ number) }
    {
        match self.numbers.get(session as usize) {
            Some(its) => *its <= number,
            None => false,
        }
    }

    /// Whether the session's number is there, and above this.
    pub fn is_above(&self, session: u32, number: u64) -> bool
        ensures { IsTrue result → (session < length self.now) × (number < item self.now session) }
    {
        match self.numbers.get(session as usize) {
            Some(its) => number < *its,
            None => false,
        }
    }

    /// Raises the session's number to this, if it is there and less.
    pub fn raise(&mut self, session: u32, number: u64)
        ensures size { length self.new ≡ length self.old }
        ensures no_less { (s : ℕ) → item self.old s ≤ item self.new s }
        ensures there { session < length self.new → number ≤ item self.new session }
    {
        raise(self.numbers.as_mut_slice(), session as usize, number);
    }

    /// Lowers the session's number to this, if it is there and more.
    pub fn lower(&mut self, session: u32, number: u64)
        ensures size { length self.new ≡ length self.old }
        ensures no_more { (s : ℕ) → item self.new s ≤ item self.old s }
        ensures there { session < length self.new → item self.new session ≤ number }
    {
        lower(self.numbers.as_mut_slice(), session as usize, number);
    }
}

fn raise(numbers: &mut [u64], place: usize, number: u64)
    ensures size { length numbers.new ≡ length numbers.old }
    ensures no_less { (s : ℕ) → item numbers.old s ≤ item numbers.new s }
    ensures there { place < length numbers.new → number ≤ item numbers.new place }
{
    if place >= numbers.len() {
        return;
    }
    if numbers[place] < number {
        numbers[place] = number;
    }
}

fn lower(numbers: &mut [u64], place: usize, number: u64)
    ensures size { length numbers.new ≡ length numbers.old }
    ensures no_more { (s : ℕ) → item numbers.new s ≤ item numbers.old s }
    ensures there { place < length numbers.new → item numbers.new place ≤ number }
{
    if place >= numbers.len() {
        return;
    }
    if number < numbers[place] {
        numbers[place] = number;
    }
}
