//! The pairs by their later ends.
ghost use Rattle.std.specs.Prelude.{◌≡◌, ◌<◌, ◌++◌, ◌∷◌, ◌==◌, ℕ, [], IfOk, OnOk, length, if◌then◌else◌};
ghost use Rattle.order_witness.specs.ByNumber.{list_at};
ghost use Rattle.order_witness.specs.Heads.{AreEndsOf};

use crate::begun::is_begun;
use report_rules::{Pair, Reply};
use std::alloc::{AllocError, Global};
use weave_data::Items;

/// For each request the earlier ends of those of its pairs whose two ends are begun.
pub fn earlier_ends(
    alloc: Global,
    replies: &[Reply],
    pairs: &[Pair],
) -> Result<Vec<Items<usize>>, AllocError>
    ensures size { IfOk result (λ ends. length ends.items ≡ length replies.now) }
    ensures ends { IfOk result (λ ends. AreEndsOf replies.now pairs.now ends.items) }
{
    let mut ends = empty_lists(alloc, replies.len())?;
    for pair in pairs {
        if is_begun(replies, pair.earlier) && is_begun(replies, pair.later) {
            put(&mut ends, pair.later as usize, pair.earlier as usize)?;
        }
    }
    Ok(ends)
}

// Puts the item at the end of the list of this number, if there is one.
fn put(lists: &mut Vec<Items<usize>>, number: usize, item: usize) -> Result<(), AllocError>
    ensures size { length lists.new.items ≡ length lists.old.items }
    ensures after { OnOk result ((n : ℕ) → n < length lists.old.items
        → list_at lists.new.items n ≡ list_at lists.old.items n ++ (if number == n then item ∷ [] else [])) }
{
    if number >= lists.len() {
        return Ok(());
    }
    let list = &mut lists[number];
    list.push(item)?;
    Ok(())
}

/// That many empty lists.
pub fn empty_lists(alloc: Global, count: usize) -> Result<Vec<Items<usize>>, AllocError>
    ensures size { IfOk result (λ lists. length lists.items ≡ count) }
    ensures empty { IfOk result (λ lists. (n : ℕ) → list_at lists.items n ≡ []) }
{
    let mut lists = Vec::new(alloc);
    for _ in 0..count {
        lists.push(Items::new(alloc))?;
    }
    Ok(lists)
}
