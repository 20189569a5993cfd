//! Sets of numbers, a bit each.
ghost use Rattle.std.specs.Prelude.{◌≡◌, ℕ, ◌+◌, ◌/◌, ◌<◌, ◌||◌, ◌==◌, false, IfOk, length, replicate};
ghost use Rattle.order_witness.specs.Bits.{has_bit};

use std::alloc::{AllocError, Global};
use std::marker::Model;

/// A set of numbers below a bound, seen by contracts as its words of 64 bits.
#[derive(Drop)]
pub struct Row {
    words: Vec<u64>,
}

impl Model for Row {
    ghost use Rattle.std.specs.Prelude.{ℕ, List};

    ghost Value = { List ℕ };

    ghost view = { λ r. r.words.items };
}

impl Row {
    /// The empty set, with room for each number up to the bound.
    pub fn empty(alloc: Global, bound: usize) -> Result<Row, AllocError>
        ensures room { IfOk result (λ row. length row ≡ bound / 64 + 1) }
        ensures empty { IfOk result (λ row. (n : ℕ) → has_bit row n ≡ false) }
    {
        Ok(Row {
            words: zeroes(alloc, bound / 64 + 1)?,
        })
    }

    /// Whether it has the number.
    pub fn has(&self, number: usize) -> bool
        ensures { result ≡ has_bit self.now number }
    {
        bit(self.words.as_slice(), number)
    }

    /// Puts the number in.
    pub fn put(&mut self, number: usize)
        requires { number / 64 < length self.old }
        ensures room { length self.new ≡ length self.old }
        ensures after { (n : ℕ) → has_bit self.new n ≡ (has_bit self.old n || n == number) }
    {
        set_bit(self.words.as_mut_slice(), number);
    }
}

fn zeroes(alloc: Global, count: usize) -> Result<Vec<u64>, AllocError>
    ensures { IfOk result (λ words. words.items ≡ replicate count 0) }
{
    vec![in alloc; 0; count]
}

fn bit(words: &[u64], number: usize) -> bool
    ensures { result ≡ has_bit words.now number }
{
    match words.get(number / 64) {
        Some(word) => (word >> (number % 64)) & 1 == 1,
        None => false,
    }
}

fn set_bit(words: &mut [u64], number: usize)
    requires { number / 64 < length words.old }
    ensures room { length words.new ≡ length words.old }
    ensures after { (n : ℕ) → has_bit words.new n ≡ (has_bit words.old n || n == number) }
{
    words[number / 64] |= 1 << (number % 64);
}
