use crate::names::{named, numbered};
use std::alloc::{AllocError, Global};
use std::process::Abort;
use weave_data::{Copied, Items, Name, NameMap, are_rising};

#[test]
fn what_is_a_name(rt: HostRuntime) {
    let letters = [b'z'; 33];
    let rows = [
        (b"".as_slice(), false),
        (b"a".as_slice(), true),
        (&letters[..32], true),
        (letters.as_slice(), false),
        (b"_az09".as_slice(), true),
        (b"aZ".as_slice(), false),
        (b"a b".as_slice(), false),
    ];
    for (bytes, want) in rows {
        assert!(rt; Name::parse(bytes).is_some() == want, "at {bytes:?}");
    }
    for byte in [b'/', b':', b'^', b'`', b'{', 225] {
        assert!(rt; Name::parse(&[byte]).is_none(), "at {byte}");
    }
}

#[test]
fn bytes_and_shard(rt: HostRuntime) {
    for (text, shard) in [(b"ann", 1), (b"bob", 1), (b"cyd", 0)] {
        let name = named(&rt, text);
        assert!(rt; name.bytes() == text.as_slice() && name.shard(2) == shard);
    }
}

#[test]
fn order_of_names(rt: HostRuntime) {
    let rows = [
        (b"a".as_slice(), b"ab".as_slice()),
        (b"ab", b"b"),
        (b"9", b"_"),
        (b"_", b"a"),
    ];
    for (less, more) in rows {
        let (less, more) = (named(&rt, less), named(&rt, more));
        assert!(rt; less < more && less != more);
    }
}

fn put_each(rt: &impl Abort, map: &mut NameMap<u32>, rows: &[(Name, u32)]) {
    for row in rows {
        map.put(row.0, row.1).expect(rt, "memory");
    }
}

// Whether the copy of a map has these pairs.
fn is_copied(rt: &impl Abort, alloc: Global, map: &NameMap<u32>, pairs: &[(Name, u32)]) -> bool {
    let copied: NameMap<u32> = map.copy(alloc).expect(rt, "memory");
    copied.as_slice() == pairs
}

// The first of two keys is removed.
fn remove_first(rt: &impl Abort, map: &mut NameMap<u32>, a: Name, b: Name) {
    assert!(rt; map.remove(a) && !map.remove(a) && map.len() == 1);
    assert!(rt; map.get(a) == None && map.get(b) == Some(&3));
    assert!(rt; map.is_full(a, 1) && !map.is_full(b, 1));
}

// The value of the second is written over.
fn swap_second(rt: &impl Abort, map: &mut NameMap<u32>, b: Name) {
    if map.has(b) {
        assert!(rt; map.swap(b, 4) == 3);
    }
    assert!(rt; map.as_slice() == [(b, 4)].as_slice());
}

#[test]
fn a_map(rt: HostRuntime) {
    let (a, b) = (named(&rt, b"a"), named(&rt, b"b"));
    let mut map = NameMap::new(rt.alloc());
    put_each(&rt, &mut map, &[(b, 1), (a, 2), (b, 3)]);
    assert!(rt; is_copied(&rt, rt.alloc(), &map, &[(a, 2), (b, 3)]));
    remove_first(&rt, &mut map, a, b);
    swap_second(&rt, &mut map, b);
}

// The nth key of a mixed order, below 71.
fn mixed(rt: &impl Abort, n: usize) -> Name {
    numbered(rt, n % 71 * 7 % 71)
}

// The key is dropped, which leaves that many, and put back.
fn drop_and_put_back(
    rt: &impl Abort,
    alloc: Global,
    map: &mut NameMap<u32>,
    key: Name,
    others: usize,
) {
    if map.has(key) {
        let undo = map.take(alloc, key).expect(rt, "memory");
        if map.has(key) || map.len() != others {
            panic!(rt; "not dropped");
        }
        map.take_back(undo);
    }
}

// Each of n and one keys has its number for its value, and is dropped and put back.
fn drop_each(rt: &impl Abort, alloc: Global, map: &mut NameMap<u32>, n: usize) {
    let before: NameMap<u32> = map.copy(alloc).expect(rt, "memory");
    for other in 0..=n {
        let key = mixed(rt, other);
        drop_and_put_back(rt, alloc, map, key, n);
        is_as_before(rt, map, &before, key, other);
    }
}

// The map is as it was, and the key has its number for its value.
fn is_as_before(
    rt: &impl Abort,
    map: &NameMap<u32>,
    before: &NameMap<u32>,
    key: Name,
    number: usize,
) {
    let Some(value) = map.get(key) else {
        panic!(rt; "no value");
    };
    assert!(rt; *value as usize == number && *map == *before);
}

// Each key of the map dropped and put back, at each number of keys up to 70.
#[test]
fn keys_put_back(rt: HostRuntime) {
    let mut map = NameMap::new(rt.alloc());
    for n in 0..70 {
        map.put(mixed(&rt, n), n as u32).expect(&rt, "memory");
        drop_each(&rt, rt.alloc(), &mut map, n);
    }
}

// The key is written over, or is new, and this is taken back.
fn write_and_take_back(rt: &impl Abort, map: &mut NameMap<u32>, before: &NameMap<u32>, key: Name) {
    let undo = map.insert(key, 100).expect(rt, "memory");
    assert!(rt; map.get(key) == Some(&100));
    map.take_back(undo);
    assert!(rt; *map == *before);
}

fn write_each(rt: &impl Abort, alloc: Global, map: &mut NameMap<u32>, keys: &[Name; 3]) {
    let before: NameMap<u32> = map.copy(alloc).expect(rt, "memory");
    for key in keys {
        write_and_take_back(rt, map, &before, *key);
    }
}

// A key written over and written back, and a new one dropped again, at each number of keys up to 70.
#[test]
fn changes_taken_back(rt: HostRuntime) {
    let new = named(&rt, b"new");
    let mut map = NameMap::new(rt.alloc());
    for n in 0..70 {
        let key = mixed(&rt, n);
        map.put(key, n as u32).expect(&rt, "memory");
        write_each(&rt, rt.alloc(), &mut map, &[key, new, mixed(&rt, n / 2)]);
    }
}

// The map of pairs, whose names rise.
fn map_of(rt: &impl Abort, alloc: Global, pairs: &[(Name, u32)]) -> NameMap<u32> {
    let pairs = Vec::from_slice(alloc, pairs).expect(rt, "memory");
    if !are_rising(pairs.as_slice()) {
        panic!(rt; "not rising");
    }
    NameMap::from_vec(pairs).expect(rt, "memory")
}

// The map is made again of its pairs, and the value of the second of its three keys is written over.
fn put_again(rt: &impl Abort, map: NameMap<u32>, a: Name, b: Name, c: Name) {
    let mut again = NameMap::from_vec(map.into_vec()).expect(rt, "memory");
    again.put(b, 4).expect(rt, "memory");
    assert!(rt; again.as_slice() == [(a, 1), (b, 4), (c, 3)].as_slice());
}

fn what_is_rising(rt: &impl Abort, a: Name, b: Name, c: Name) {
    assert!(rt; !are_rising(&[(a, 1), (c, 2), (b, 3)]) && !are_rising(&[(a, 1), (a, 2)]));
    assert!(rt; are_rising::<u32>(&[]));
}

#[test]
fn a_map_of_a_vec(rt: HostRuntime) {
    let (a, b, c) = (named(&rt, b"a"), named(&rt, b"b"), named(&rt, b"c"));
    what_is_rising(&rt, a, b, c);
    let map = map_of(&rt, rt.alloc(), &[(a, 1), (b, 2), (c, 3)]);
    assert!(rt; map.len() == 3 && map.get(a) == Some(&1) && map.get(c) == Some(&3));
    put_again(&rt, map, a, b, c);
}

#[test]
fn a_list(rt: HostRuntime) {
    let alloc = rt.alloc();
    let mut items = Items::new(alloc);
    for item in [Some(7), None] {
        items.push(item).expect(&rt, "memory");
    }
    let copied: Items<Option<u32>> = items.copy(alloc).expect(&rt, "memory");
    assert!(rt; copied.as_slice() == [Some(7), None].as_slice());
    let again = Items::from_vec(copied.into_vec());
    assert!(rt; again.as_slice() == items.as_slice());
}

#[test]
fn copies_of_names_and_numbers(rt: HostRuntime) {
    let alloc = rt.alloc();
    let longest = [b'z'; 32];
    for bytes in [b"a".as_slice(), b"_az09".as_slice(), longest.as_slice()] {
        let name = named(&rt, bytes);
        let cloned: Result<Name, AllocError> = name.clone();
        assert!(rt; name.copy(alloc) == Ok(name) && cloned == Ok(name));
        assert!(rt; Some(name).copy(alloc) == Ok(Some(name)));
    }
    for number in [0, 7, u32::MAX] {
        assert!(rt;
            number.copy(alloc) == Ok(number) && Some(number).copy(alloc) == Ok(Some(number))
        );
    }
    let absent: Option<u32> = None;
    assert!(rt; absent.copy(alloc) == Ok(None));
}

// A list grows by one element at a time, and is copied at each length.
#[test]
fn lists_of_each_length(rt: HostRuntime) {
    let alloc = rt.alloc();
    let mut items: Items<u32> = Items::new(alloc);
    for number in 0..70 {
        let copied = items.copy(alloc).expect(&rt, "memory");
        assert!(rt; copied.as_slice() == items.as_slice());
        items.push(number).expect(&rt, "memory");
        assert!(rt; items.as_slice().last() == Some(&number));
    }
    assert!(rt; items.as_slice().len() == 70);
}

// A map with a key for each second number.
fn every_second(rt: &impl Abort, alloc: Global, keys: usize) -> NameMap<u32> {
    let mut map = NameMap::new(alloc);
    for n in 0..keys {
        let key = numbered(rt, n % 1_000 * 2 + 1);
        map.put(key, 1).expect(rt, "memory");
    }
    map
}

// A key is put into the map, and written over.
fn put_twice(rt: &impl Abort, map: &mut NameMap<u32>, key: Name) {
    map.put(key, 2).expect(rt, "memory");
    map.put(key, 3).expect(rt, "memory");
    assert!(rt; map.get(key) == Some(&3));
}

// The key is taken out, which leaves the map that was before, and put back.
fn take_and_put_back(
    rt: &impl Abort,
    alloc: Global,
    map: &mut NameMap<u32>,
    before: &NameMap<u32>,
    key: Name,
) {
    if map.has(key) {
        let undo = map.take(alloc, key).expect(rt, "memory");
        assert!(rt; *map == *before);
        map.take_back(undo);
    }
}

// A new key is put into the map, and this is taken back.
fn insert_and_take_back(rt: &impl Abort, map: &mut NameMap<u32>, before: &NameMap<u32>, key: Name) {
    let undo = map.insert(key, 4).expect(rt, "memory");
    assert!(rt; map.get(key) == Some(&4));
    map.take_back(undo);
    assert!(rt; *map == *before);
}

// A new key is put into the map, written over, taken out and put back, and dropped.
fn there_and_back(rt: &impl Abort, alloc: Global, map: &mut NameMap<u32>, key: Name) {
    let before: NameMap<u32> = map.copy(alloc).expect(rt, "memory");
    assert!(rt; before == *map);
    put_twice(rt, map, key);
    take_and_put_back(rt, alloc, map, &before, key);
    assert!(rt; map.remove(key) && *map == before);
    insert_and_take_back(rt, map, &before, key);
}

// New keys at each place of a map of that many.
fn put_at_each_place(rt: &impl Abort, alloc: Global, map: &mut NameMap<u32>, keys: usize) {
    assert!(rt; map.len() == keys);
    for place in 0..=keys {
        let key = numbered(rt, place % 1_000 * 2);
        there_and_back(rt, alloc, map, key);
    }
}

// New keys at each place of maps of each size up to 20, the empty map among them.
#[test]
fn keys_at_each_place(rt: HostRuntime) {
    for keys in 0..20 {
        let mut map = every_second(&rt, rt.alloc(), keys);
        put_at_each_place(&rt, rt.alloc(), &mut map, keys);
    }
}
