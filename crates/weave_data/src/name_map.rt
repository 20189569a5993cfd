//! A map under names.
ghost use Rattle.std.specs.Prelude.{◌≡◌, ◌≤◌, ◌<◌, ◌+◌, ◌-◌, ◌^◌, [], length, Some, option_copied, IsTrue, ◌↔◌, IfOk, IfErr, IsOk, OnOk, OnErr};
ghost use Rattle.std.specs.Vec.{vec_len, vec_capacity};
ghost use Rattle.weave_data.specs.Changes.{places, undone_pairs, Fits, TakesBack};
ghost use Rattle.weave_data.specs.declared.change.Undo.TheVariants.{PutBack};
ghost use Rattle.weave_data.specs.Pairs.{at_key, has, put, without_key, is_full, IsRising};
ghost use Rattle.weave_data.specs.Places.{IsAt, IsGap};

use crate::change::{Room, Undo};
use crate::copied::Copied;
use crate::name::Name;
use crate::places::places;
use std::alloc::{AllocError, Global};
use std::marker::Model;
use std::mem::replace;

/// A map from names, seen by contracts as a list of pairs in rising order of keys.
#[derive(Drop)]
pub struct NameMap<T> {
    pairs: Vec<(Name, T)>,
}

impl<T> Model for NameMap<T> {
    ghost use Rattle.std.specs.Prelude.{ℕ, List, ◌≤◌};
    ghost use Rattle.std.specs.Vec.{vec_len, vec_capacity};
    ghost use Rattle.weave_data.specs.Changes.{places};
    ghost use Rattle.weave_data.specs.Pairs.{IsRising};

    ghost Value = { List (List ℕ × T) };

    ghost view = { λ m. m.pairs.items };

    ghost invariant = { λ m. IsRising m.pairs.items × (places (vec_len m.pairs) ≤ vec_capacity m.pairs) };
}

impl<T> NameMap<T> {
    /// A map with nothing in it. It takes no memory.
    pub fn new(alloc: Global) -> Self
        ensures { result ≡ [] }
    {
        NameMap {
            pairs: Vec::new(alloc),
        }
    }

    /// The pairs of a map. It takes no memory.
    pub fn into_vec(self) -> Vec<(Name, T)>
        ensures pairs { result.items ≡ self }
        ensures rising { IsRising self }
        ensures room { places (vec_len result) ≤ vec_capacity result }
    {
        let NameMap { pairs } = self;
        pairs
    }

    /// The number of its keys.
    pub fn len(&self) -> usize
        ensures { result ≡ length self.now }
    {
        self.pairs.len()
    }

    /// Its pairs in order.
    pub fn as_slice(&self) -> &[(Name, T)]
        ensures pairs { result.now ≡ self.now }
        ensures rising { IsRising self.now }
    {
        self.pairs.as_slice()
    }

    /// What is at a key.
    pub fn get(&self, key: Name) -> Option<&T>
        ensures { option_copied result ≡ at_key key self.now }
    {
        match search(self.pairs.as_slice(), key) {
            Ok(at) => Some(&self.pairs[at].1),
            Err(_) => None,
        }
    }

    /// Whether there is something at a key.
    pub fn has(&self, key: Name) -> bool
        ensures { result ≡ has key self.now }
    {
        self.get(key).is_some()
    }

    /// Whether the key is new and the map has `limit` keys or more.
    pub fn is_full(&self, key: Name, limit: usize) -> bool
        ensures { result ≡ is_full limit key self.now }
    {
        !self.has(key) && limit <= self.len()
    }
}

impl<T: Drop> NameMap<T> {
    /// The map of pairs in rising order of keys. The one error is out of memory; a `Vec` that `into_vec` gave has room,
    /// and takes none.
    pub fn from_vec(pairs: Vec<(Name, T)>) -> Result<Self, AllocError>
        requires { IsRising pairs.items }
        ensures ok { IfOk result (λ map. map ≡ pairs.items) }
        ensures no_memory { places (vec_len pairs) ≤ vec_capacity pairs → IsOk result }
    {
        let wanted = places(pairs.len());
        let mut pairs = pairs;
        if pairs.capacity() < wanted {
            make_places(&mut pairs, wanted)?;
        }
        Ok(NameMap { pairs })
    }

    /// Puts a value at a key, in place of another one or new. The one error is out of memory, and then the map is as
    /// before.
    pub fn put(&mut self, key: Name, value: T) -> Result<(), AllocError>
        ensures ok { OnOk result (self.new ≡ put key value self.old) }
        ensures err { OnErr result (self.new ≡ self.old) }
    {
        self.insert(key, value)?;
        Ok(())
    }

    /// Puts a value at a key, and answers what takes that back. The one error is out of memory, and then the map is as
    /// before.
    pub fn insert(&mut self, key: Name, value: T) -> Result<Undo<T>, AllocError>
        ensures ok { OnOk result (self.new ≡ put key value self.old) }
        ensures undo { IfOk result (λ undo. TakesBack undo self.new self.old) }
        ensures err { OnErr result (self.new ≡ self.old) }
    {
        match search(self.pairs.as_slice(), key) {
            Ok(at) => {
                let value = write(&mut self.pairs, at, key, value);
                Ok(Undo::Write { key, value })
            }
            Err(at) => {
                let pairs = self.pairs.len();
                make_places(&mut self.pairs, places(pairs + 1))?;
                add(&mut self.pairs, at, key, value);
                Ok(Undo::Remove { key })
            }
        }
    }

    /// Puts a value in place of another one, which it answers. It takes no memory.
    pub fn swap(&mut self, key: Name, value: T) -> T
        requires { IsTrue (has key self.old) }
        ensures before { at_key key self.old ≡ Some result }
        ensures after { self.new ≡ put key value self.old }
        ensures rising { IsRising self.old }
    {
        let Ok(at) = search(self.pairs.as_slice(), key) else {
            unreachable!()
        };
        write(&mut self.pairs, at, key, value)
    }

    /// Drops a key, and answers whether it was there.
    pub fn remove(&mut self, key: Name) -> bool
        ensures found { result ≡ has key self.old }
        ensures after { self.new ≡ without_key key self.old }
    {
        match search(self.pairs.as_slice(), key) {
            Ok(at) => {
                cut(&mut self.pairs, at, key);
                true
            }
            Err(_) => false,
        }
    }

    /// Drops a key, and answers what takes that back. The one error is out of memory, and then the map is as before.
    pub fn take(&mut self, alloc: Global, key: Name) -> Result<Undo<T>, AllocError>
        requires { IsTrue (has key self.old) }
        ensures ok { OnOk result (self.new ≡ without_key key self.old) }
        ensures undo { IfOk result (λ undo. TakesBack undo self.new self.old) }
        ensures err { OnErr result (self.new ≡ self.old) }
    {
        let Ok(at) = search(self.pairs.as_slice(), key) else {
            unreachable!()
        };
        let room = room_beside(alloc, self.pairs.len())?;
        let value = cut(&mut self.pairs, at, key);
        Ok(Undo::PutBack { key, value, room })
    }

    /// Takes a change back. It takes no memory.
    pub fn take_back(&mut self, undo: Undo<T>)
        requires { Fits undo self.old }
        ensures { self.new ≡ undone_pairs undo self.old }
    {
        match undo {
            Undo::Write { key, value } => {
                self.swap(key, value);
            }
            Undo::Remove { key } => {
                self.remove(key);
            }
            Undo::PutBack { key, value, room } => self.put_back(key, value, room),
        }
    }

    // Puts a pair back that was taken out.
    fn put_back(&mut self, key: Name, value: T, room: Room<T>)
        requires { Fits (PutBack key value room) self.old }
        ensures { self.new ≡ put key value self.old }
    {
        let Err(at) = search(self.pairs.as_slice(), key) else {
            unreachable!()
        };
        move_to_larger(&mut self.pairs, room.into_block());
        add(&mut self.pairs, at, key, value);
    }
}

/// Whether the keys of pairs rise, so that none comes twice.
pub fn are_rising<T>(pairs: &[(Name, T)]) -> bool
    ensures { IsTrue result ↔ IsRising pairs.now }
{
    for place in 1..pairs.len() {
        if pairs[place - 1].0 >= pairs[place].0 {
            return false;
        }
    }
    true
}

// Where the key is, or where it would go.
fn search<T>(pairs: &[(Name, T)], key: Name) -> Result<usize, usize>
    requires { IsRising pairs.now }
    ensures found { IfOk result (λ at. IsAt key pairs.now at) }
    ensures absent { IfErr result (λ at. IsGap key pairs.now at) }
{
    pairs.binary_search_by_key(&key, |pair| pair.0)
}

// Sees that there are this many places.
fn make_places<T>(pairs: &mut Vec<(Name, T)>, places: usize) -> Result<(), AllocError>
    requires { vec_len pairs.old < places }
    ensures items { pairs.new.items ≡ pairs.old.items }
    ensures len { vec_len pairs.new ≡ vec_len pairs.old }
    ensures places { OnOk result (places ≤ vec_capacity pairs.new) }
    ensures capacity { vec_capacity pairs.old ≤ vec_capacity pairs.new }
{
    pairs.reserve(places - pairs.len())
}

// Adds a pair at its place.
fn add<T: Drop>(pairs: &mut Vec<(Name, T)>, at: usize, key: Name, value: T)
    requires gap { IsGap key pairs.old.items at }
    requires room { vec_len pairs.old < vec_capacity pairs.old }
    ensures items { pairs.new.items ≡ put key value pairs.old.items }
    ensures len { vec_len pairs.new ≡ vec_len pairs.old + 1 }
    ensures capacity { vec_capacity pairs.old ≤ vec_capacity pairs.new }
{
    let _ = pairs.insert(at, (key, value));
}

// Writes a value at the place of its key, and answers the one before.
fn write<T>(pairs: &mut Vec<(Name, T)>, at: usize, key: Name, value: T) -> T
    requires { IsAt key pairs.old.items at }
    ensures before { at_key key pairs.old.items ≡ Some result }
    ensures items { pairs.new.items ≡ put key value pairs.old.items }
    ensures len { vec_len pairs.new ≡ vec_len pairs.old }
    ensures capacity { vec_capacity pairs.new ≡ vec_capacity pairs.old }
{
    let (_, before) = replace(&mut pairs[at], (key, value));
    before
}

// Drops the pair at the place of its key, and answers its value.
fn cut<T>(pairs: &mut Vec<(Name, T)>, at: usize, key: Name) -> T
    requires { IsAt key pairs.old.items at }
    ensures before { at_key key pairs.old.items ≡ Some result }
    ensures items { pairs.new.items ≡ without_key key pairs.old.items }
    ensures len { vec_len pairs.new + 1 ≡ vec_len pairs.old }
    ensures capacity { vec_capacity pairs.new ≡ vec_capacity pairs.old }
{
    let (_, before) = pairs.remove(at);
    before
}

// The room that a pair which is taken out of this many needs besides them.
fn room_beside<T>(alloc: Global, pairs: usize) -> Result<Room<T>, AllocError>
    requires { (0 < pairs) × (pairs + 64 < 2 ^ 64) }
    ensures { IfOk result (λ room. places (pairs - 1) < places pairs → places pairs ≤ room) }
{
    if places(pairs - 1) < places(pairs) {
        return Room::new(alloc, places(pairs));
    }
    Ok(Room::none(alloc))
}

// Moves the pairs to the block if that has more places.
fn move_to_larger<T: Drop>(pairs: &mut Vec<(Name, T)>, mut block: Vec<(Name, T)>)
    requires { block.items ≡ [] }
    ensures items { pairs.new.items ≡ pairs.old.items }
    ensures len { vec_len pairs.new ≡ vec_len pairs.old }
    ensures capacity { vec_capacity pairs.old ≤ vec_capacity pairs.new }
    ensures block { vec_capacity block ≤ vec_capacity pairs.new }
{
    if pairs.capacity() < block.capacity() {
        let _ = block.append(pairs);
        *pairs = block;
    }
}

impl<T: Copied + Drop> Copied for NameMap<T> {
    fn copy(&self, alloc: Global) -> Result<Self, AllocError> {
        let pairs = self.pairs.as_slice();
        let mut copies = Vec::with_capacity(alloc, places(pairs.len()))?;
        copy_pairs(alloc, pairs, &mut copies)?;
        Ok(NameMap { pairs: copies })
    }
}

fn copy_pairs<T: Copied + Drop>(
    alloc: Global,
    pairs: &[(Name, T)],
    copies: &mut Vec<(Name, T)>,
) -> Result<(), AllocError>
    requires { copies.old.items ≡ [] }
    ensures items { OnOk result (copies.new.items ≡ pairs.now) }
    ensures capacity { OnOk result (vec_capacity copies.old ≤ vec_capacity copies.new) }
{
    for (key, value) in pairs {
        copies.push((*key, value.copy(alloc)?))?;
    }
    Ok(())
}

impl<T: PartialEq> PartialEq for NameMap<T> {
    ghost use Rattle.std.specs.Prelude.{◌&&◌};
    ghost use Rattle.std.specs.Cmp.{on_per, and_per, partial_equiv_from_equiv, eq_by_cmp_equiv};
    ghost use Rattle.std.specs.Cmp.Lexicographic.{pointwise, lists_per, nat_list_cmp_total};
    ghost use Rattle.weave_data.specs.Names.{same_name};

    ghost eq = { pointwise (λ p q. same_name p.0 q.0 && T.eq p.1 q.1) };

    ghost laws = { lists_per (and_per
        (on_per (λ p. p.0) (partial_equiv_from_equiv (eq_by_cmp_equiv nat_list_cmp_total)))
        (on_per (λ p. p.1) T.laws)) };

    fn eq(&self, other: &Self) -> bool {
        self.pairs.as_slice() == other.pairs.as_slice()
    }
}
