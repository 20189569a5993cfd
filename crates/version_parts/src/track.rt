//! The items of one thing.
ghost use Rattle.std.specs.Prelude.{◌≡◌, ◌≤◌, ◌∷◌, ◌++◌, [], length, drop, take, is_some, option_copied, OnOk, OnErr};
ghost use Rattle.std.specs.List.Sorted.{IsNonDecreasingBy};
ghost use Rattle.std.specs.Option.{option_to_list};
ghost use Rattle.version_parts.specs.Tracks.{last_at, shown_value, live_at, since_at, from_oldest, cut_items, inner_cut, AllTimes};
ghost use Rattle.version_parts.specs.Splits.{IsSplit};
ghost use Rattle.version_parts.specs.Counts.{has_items};

use crate::cut::Cut;
use crate::time::Time;
use std::alloc::{AllocError, Global};
use std::marker::Model;

/// What a thing became, and when. A value is there if the thing is.
#[derive(Drop)]
pub struct Item<T> {
    pub time: Time,
    pub value: Option<T>,
}

/// The items of one thing, in the order of their updates.
#[derive(Drop)]
pub struct Track<T> {
    items: Vec<Item<T>>,
}

impl<T> Model for Track<T> {
    ghost use Rattle.std.specs.Prelude.{List};
    ghost use Rattle.std.specs.List.Sorted.{IsNonDecreasingBy};
    ghost use Rattle.version_parts.specs.declared.track.Item.{Item};

    ghost Value = { List (Item T) };

    ghost view = { λ t. t.items.items };

    ghost invariant = { λ t. IsNonDecreasingBy (λ (item : Item T). item.time.update) t.items.items };
}

impl<T> Track<T> {
    /// No items. It takes no memory.
    pub(crate) fn new(alloc: Global) -> Self
        ensures { result ≡ [] }
    {
        Track {
            items: Vec::new(alloc),
        }
    }

    /// The allocator of its items.
    pub(crate) fn alloc(&self) -> Global {
        *self.items.allocator()
    }

    /// How many items it has.
    pub(crate) fn len(&self) -> usize
        ensures { result ≡ length self.now }
    {
        self.items.len()
    }

    /// Whether it has an item.
    pub(crate) fn has_items(&self) -> bool
        ensures { result ≡ has_items self.now }
    {
        has_some(self.items.as_slice())
    }
}

impl<T: Drop> Track<T> {
    /// Adds an item, of an update that is no earlier than those of the others. The one error is out of memory, and then
    /// the items are as before.
    pub(crate) fn add(&mut self, item: Item<T>) -> Result<(), AllocError>
        requires { AllTimes (λ time. time.update ≤ item.time.update) self.old }
        ensures ok { OnOk result (self.new ≡ self.old ++ item ∷ []) }
        ensures err { OnErr result (self.new ≡ self.old) }
    {
        make_first(&mut self.items)?;
        self.items.push(item)?;
        Ok(())
    }

    /// Drops items. It takes no memory.
    pub(crate) fn cut(&mut self, cut: Cut)
        ensures { self.new ≡ cut_items cut self.old }
    {
        match cut {
            Cut::Newer { update } => {
                let left = passed(self.items.as_slice(), update);
                self.items.truncate(left);
            }
            Cut::Older { oldest, since } => {
                let gone = outdated(self.items.as_slice(), oldest, since);
                self.items.drain(..gone);
            }
        }
    }
}

impl<T: Copy> Track<T> {
    /// What the thing is after an update, with the time since when. It is part of something that is there since
    /// `since`.
    pub(crate) fn live_at(&self, update: u64, since: Option<Time>) -> Option<(Time, T)>
        ensures { result ≡ live_at update since self.now }
    {
        let item = last_at(self.items.as_slice(), update)?;
        shown(item, since)
    }

    /// The time since when it is there.
    pub(crate) fn since_at(&self, update: u64, since: Option<Time>) -> Option<Time>
        ensures { result ≡ since_at update since self.now }
    {
        let (since, _) = self.live_at(update, since)?;
        Some(since)
    }

    /// The cut of what is part of it.
    pub(crate) fn inner_cut(&self, cut: Cut) -> Cut
        ensures { result ≡ inner_cut cut self.now }
    {
        match cut {
            Cut::Newer { update } => Cut::Newer { update },
            Cut::Older { oldest, since } => Cut::Older {
                oldest,
                since: self.since_at(oldest, since),
            },
        }
    }
}

// Takes room for one item alone, if there is none.
fn make_first<T>(items: &mut Vec<Item<T>>) -> Result<(), AllocError>
    ensures { items.new.items ≡ items.old.items }
{
    if items.is_empty() {
        items.reserve_exact(1)?;
    }
    Ok(())
}

fn has_some<T>(items: &[Item<T>]) -> bool
    ensures { result ≡ has_items items.now }
{
    items.first().is_some()
}

// How many items are of this update or of those before it.
fn passed<T>(items: &[Item<T>], update: u64) -> usize
    requires { IsNonDecreasingBy (λ item. item.time.update) items.now }
    ensures within { result ≤ length items.now }
    ensures split { IsSplit update items.now result }
{
    items.partition_point(|item| item.time.update <= update)
}

// The last of them.
fn last_at<T>(items: &[Item<T>], update: u64) -> Option<&Item<T>>
    requires { IsNonDecreasingBy (λ item. item.time.update) items.now }
    ensures { option_copied result ≡ last_at update items.now }
{
    let passed = passed(items, update);
    if passed == 0 {
        return None;
    }
    Some(&items[passed - 1])
}

// What an item says of a part of a thing that is there since `since`.
fn shown<T: Copy>(item: &Item<T>, since: Option<Time>) -> Option<(Time, T)>
    ensures { result ≡ shown_value since item.now }
{
    if !item.time.counts(since) {
        return None;
    }
    let value = item.value?;
    Some((item.time, value))
}

fn is_shown<T>(item: &Item<T>, since: Option<Time>) -> bool
    ensures { result ≡ is_some (shown_value since item.now) }
{
    item.time.counts(since) && item.value.is_some()
}

// How many of the first items no state from the oldest update on has.
fn outdated<T>(items: &[Item<T>], oldest: u64, since: Option<Time>) -> usize
    requires { IsNonDecreasingBy (λ item. item.time.update) items.now }
    ensures within { result ≤ length items.now }
    ensures left { drop result items.now ≡ from_oldest oldest since items.now }
{
    let passed = passed(items, oldest);
    if passed == 0 {
        return 0;
    }
    if is_shown(&items[passed - 1], since) {
        passed - 1
    } else {
        passed
    }
}
