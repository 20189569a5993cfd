//! Lists, one for each number below a bound.
ghost use Rattle.std.specs.Prelude.{◌≡◌, ℕ, ◌<◌, ◌==◌, ◌∷◌, ◌++◌, [], IfOk, OnOk, length, if◌then◌else◌};
ghost use Rattle.order_witness.specs.ByNumber.{list_at};

use std::alloc::{AllocError, Global};
use std::marker::Model;
use weave_data::Items;

/// A list for each number below a bound. Contracts see the lists.
#[derive(Drop)]
pub struct ByNumber {
    lists: Vec<Items<usize>>,
}

impl Model for ByNumber {
    ghost use Rattle.std.specs.Prelude.{ℕ, List};

    ghost Value = { List (List ℕ) };

    ghost view = { λ b. b.lists.items };
}

impl ByNumber {
    /// An empty list for each number below the bound.
    pub fn new(alloc: Global, bound: usize) -> Result<ByNumber, AllocError>
        ensures size { IfOk result (λ made. length made ≡ bound) }
        ensures empty { IfOk result (λ made. (n : ℕ) → list_at made n ≡ []) }
    {
        Ok(ByNumber {
            lists: empty_lists(alloc, bound)?,
        })
    }

    /// The list of a number, empty past the bound.
    pub fn list_of(&self, number: u64) -> &[usize]
        ensures { result.now ≡ list_at self.now number }
    {
        match self.lists.get(number as usize) {
            Some(list) => list.as_slice(),
            None => &[],
        }
    }

    /// Puts the item at the end of the number's list, if the number is below the bound.
    pub fn put(&mut self, number: u64, item: usize) -> Result<(), AllocError>
        ensures size { length self.new ≡ length self.old }
        ensures after { OnOk result ((n : ℕ) → n < length self.old
            → list_at self.new n ≡ list_at self.old n ++ (if number == n then item ∷ [] else [])) }
    {
        if number as usize >= self.lists.len() {
            return Ok(());
        }
        let list = &mut self.lists[number as usize];
        list.push(item)?;
        Ok(())
    }
}

fn empty_lists(alloc: Global, bound: usize) -> Result<Vec<Items<usize>>, AllocError>
    ensures size { IfOk result (λ lists. length lists.items ≡ bound) }
    ensures empty { IfOk result (λ lists. (n : ℕ) → list_at lists.items n ≡ []) }
{
    let mut lists = Vec::new(alloc);
    for _ in 0..bound {
        lists.push(Items::new(alloc))?;
    }
    Ok(lists)
}
