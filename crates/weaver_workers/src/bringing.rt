//! A shard's turn: messages are brought to it and processed there.
ghost use Rattle.std.specs.Prelude.{◌<◌, ◌≤◌};
ghost use Rattle.weaver_locks.specs.Hands.{IsHand};
ghost use Rattle.weaver_locks.specs.Locks.{gate_count, shard_count};
ghost use Rattle.weaver_workers.specs.Carrying.{CarriesAtShard};

use std::alloc::{AllocError, Global};
use std::sync::Wait;
use weave_data::{MOST_GATES, MOST_SHARDS};
use weaver_hands::{HandFault, Pulled, apply, bring, pull};
use weaver_locks::{Hand, Shared};

// The most channels.
const CHANNELS: u32 = MOST_GATES * MOST_SHARDS;

/// Up to which message each channel was brought so far, if that is known.
#[derive(Drop)]
pub struct Brought {
    numbers: Vec<Option<u64>>,
}

impl Brought {
    /// Nothing is known of any of the 8 times 16 channels. The one error is out of memory.
    pub fn new(alloc: Global) -> Result<Brought, AllocError> {
        let mut numbers = Vec::new(alloc);
        for _channel in 0..CHANNELS {
            numbers.push(None)?;
        }
        Ok(Brought { numbers })
    }

    fn on(&self, gate: u32, shard: u32) -> Option<u64> {
        match self.numbers.get(place_of(gate, shard)) {
            Some(number) => *number,
            None => None,
        }
    }

    fn set(&mut self, gate: u32, shard: u32, number: u64) {
        if let Some(slot) = self.numbers.get_mut(place_of(gate, shard)) {
            *slot = Some(number);
        }
    }
}

fn place_of(gate: u32, shard: u32) -> usize {
    shard.wrapping_mul(MOST_GATES).wrapping_add(gate) as usize
}

/// A turn of a shard: it is to take in all that each gatekeeper has sent to it and that was not brought before, and to
/// process it as far as it can. If it finds none that this worker had not found sent before, it processes nothing. The
/// contract says where the hand makes entries and of which kinds. It may wait. The one error is out of memory.
pub fn turn_shard<R: Wait>(
    rt: &R,
    alloc: Global,
    hand: &mut Hand,
    shared: &Shared,
    gates: u32,
    shard: u32,
    brought: &mut Brought,
) -> Result<(), AllocError>
    requires hand { IsHand shared.now hand.old }
    requires gates { gates ≤ gate_count shared.now }
    requires shard { shard < shard_count shared.now }
    ensures { CarriesAtShard shared.now shard hand.old hand.new }
{
    let is_new = bring_all(rt, alloc, hand, shared, gates, shard, brought)?;
    if is_new {
        return apply_all(rt, alloc, hand, shared, gates, shard);
    }
    Ok(())
}

// Brings what each gatekeeper has sent to the shard: whether there is any that this worker had not found sent before.
fn bring_all<R: Wait>(
    rt: &R,
    alloc: Global,
    hand: &mut Hand,
    shared: &Shared,
    gates: u32,
    shard: u32,
    brought: &mut Brought,
) -> Result<bool, AllocError>
    requires hand { IsHand shared.now hand.old }
    requires gates { gates ≤ gate_count shared.now }
    requires shard { shard < shard_count shared.now }
    ensures { CarriesAtShard shared.now shard hand.old hand.new }
{
    let mut is_new = false;
    for gate in 0..gates {
        let before = brought.on(gate, shard);
        let known = known_to(rt, alloc, hand, shared, gate, shard, before)?;
        let number = bring_from(rt, alloc, hand, shared, gate, shard, known)?;
        brought.set(gate, shard, number);
        is_new = is_new | (before != Some(number));
    }
    Ok(is_new)
}

// Up to which message the channel was brought: as is known, or else as a search finds.
fn known_to<R: Wait>(
    rt: &R,
    alloc: Global,
    hand: &mut Hand,
    shared: &Shared,
    gate: u32,
    shard: u32,
    known: Option<u64>,
) -> Result<u64, AllocError>
    requires hand { IsHand shared.now hand.old }
    requires gate { gate < gate_count shared.now }
    requires shard { shard < shard_count shared.now }
    ensures { CarriesAtShard shared.now shard hand.old hand.new }
{
    match known {
        Some(number) => Ok(number),
        None => search(rt, alloc, hand, shared, gate, shard),
    }
}

// Searches for the number of a message that had arrived before and whose next one had not; 0 if the first one had not.
// It costs a logarithm of that number. Messages that it looks at arrive, so another hand that searches meanwhile may
// leave those between to this one.
fn search<R: Wait>(
    rt: &R,
    alloc: Global,
    hand: &mut Hand,
    shared: &Shared,
    gate: u32,
    shard: u32,
) -> Result<u64, AllocError>
    requires hand { IsHand shared.now hand.old }
    requires gate { gate < gate_count shared.now }
    requires shard { shard < shard_count shared.now }
    ensures { CarriesAtShard shared.now shard hand.old hand.new }
{
    let mut known: u64 = 0;
    let mut stride = search_up(rt, alloc, hand, shared, gate, shard)?;
    for _halving in 0..64 {
        if stride == 0 {
            return Ok(known);
        }
        let number = known.wrapping_add(stride);
        if is_known(rt, alloc, hand, shared, gate, shard, number)? {
            known = number;
        }
        stride /= 2;
    }
    Ok(known)
}

// A power of two whose double is the number of a message that had not arrived before.
fn search_up<R: Wait>(
    rt: &R,
    alloc: Global,
    hand: &mut Hand,
    shared: &Shared,
    gate: u32,
    shard: u32,
) -> Result<u64, AllocError>
    requires hand { IsHand shared.now hand.old }
    requires gate { gate < gate_count shared.now }
    requires shard { shard < shard_count shared.now }
    ensures { CarriesAtShard shared.now shard hand.old hand.new }
{
    let mut stride: u64 = 1;
    for _doubling in 0..62 {
        let double = stride.wrapping_mul(2);
        if !is_known(rt, alloc, hand, shared, gate, shard, double)? {
            return Ok(stride);
        }
        stride = double;
    }
    Ok(stride)
}

// Whether the message had arrived before. If it was sent, it has now.
fn is_known<R: Wait>(
    rt: &R,
    alloc: Global,
    hand: &mut Hand,
    shared: &Shared,
    gate: u32,
    shard: u32,
    number: u64,
) -> Result<bool, AllocError>
    requires hand { IsHand shared.now hand.old }
    requires gate { gate < gate_count shared.now }
    requires shard { shard < shard_count shared.now }
    ensures { CarriesAtShard shared.now shard hand.old hand.new }
{
    if number == 0 {
        return Ok(true);
    }
    match bring(rt, alloc, hand, shared, gate, shard, number) {
        Ok(pulled) => Ok(was_known(pulled)),
        Err(_) => Err(AllocError),
    }
}

// Whether the message had arrived before.
fn was_known(pulled: Pulled) -> bool {
    match pulled {
        Pulled::Unsent => false,
        Pulled::Known => true,
        Pulled::New => false,
    }
}

// Brings what the gatekeeper has sent to the shard after the first ones, message by message: how many it has sent.
fn bring_from<R: Wait>(
    rt: &R,
    alloc: Global,
    hand: &mut Hand,
    shared: &Shared,
    gate: u32,
    shard: u32,
    first: u64,
) -> Result<u64, AllocError>
    requires hand { IsHand shared.now hand.old }
    requires gate { gate < gate_count shared.now }
    requires shard { shard < shard_count shared.now }
    ensures { CarriesAtShard shared.now shard hand.old hand.new }
{
    for number in first..u64::MAX {
        if !bring_one(rt, alloc, hand, shared, gate, shard, number + 1)? {
            return Ok(number);
        }
    }
    Err(AllocError)
}

// Brings the message, if it was sent: whether it was.
fn bring_one<R: Wait>(
    rt: &R,
    alloc: Global,
    hand: &mut Hand,
    shared: &Shared,
    gate: u32,
    shard: u32,
    number: u64,
) -> Result<bool, AllocError>
    requires hand { IsHand shared.now hand.old }
    requires gate { gate < gate_count shared.now }
    requires shard { shard < shard_count shared.now }
    requires number { 1 ≤ number }
    ensures { CarriesAtShard shared.now shard hand.old hand.new }
{
    match pull(rt, alloc, hand, shared, gate, shard, number) {
        Ok(sent) => Ok(sent),
        Err(_) => Err(AllocError),
    }
}

// What has arrived at the shard is processed, in rounds over the gatekeepers' channels.
fn apply_all<R: Wait>(
    rt: &R,
    alloc: Global,
    hand: &mut Hand,
    shared: &Shared,
    gates: u32,
    shard: u32,
) -> Result<(), AllocError>
    requires hand { IsHand shared.now hand.old }
    requires gates { gates ≤ gate_count shared.now }
    requires shard { shard < shard_count shared.now }
    ensures { CarriesAtShard shared.now shard hand.old hand.new }
{
    for _ in rt.forever() {
        if !apply_round(rt, alloc, hand, shared, gates, shard)? {
            return Ok(());
        }
    }
    unreachable!()
}

// A round over the channels: whether a message was processed.
fn apply_round<R: Wait>(
    rt: &R,
    alloc: Global,
    hand: &mut Hand,
    shared: &Shared,
    gates: u32,
    shard: u32,
) -> Result<bool, AllocError>
    requires hand { IsHand shared.now hand.old }
    requires gates { gates ≤ gate_count shared.now }
    requires shard { shard < shard_count shared.now }
    ensures { CarriesAtShard shared.now shard hand.old hand.new }
{
    let mut moved = false;
    for gate in 0..gates {
        let applied = apply_channel(rt, alloc, hand, shared, shard, gate)?;
        moved = moved | applied;
    }
    Ok(moved)
}

// Heads of the channel are processed while they can be: whether one was.
fn apply_channel<R: Wait>(
    rt: &R,
    alloc: Global,
    hand: &mut Hand,
    shared: &Shared,
    shard: u32,
    gate: u32,
) -> Result<bool, AllocError>
    requires hand { IsHand shared.now hand.old }
    requires shard { shard < shard_count shared.now }
    requires gate { gate < gate_count shared.now }
    ensures { CarriesAtShard shared.now shard hand.old hand.new }
{
    let mut moved = false;
    for _ in rt.forever() {
        if !apply_head(rt, alloc, hand, shared, shard, gate)? {
            return Ok(moved);
        }
        moved = true;
    }
    unreachable!()
}

// The head of the channel is processed, if it can be: whether it was.
fn apply_head<R: Wait>(
    rt: &R,
    alloc: Global,
    hand: &mut Hand,
    shared: &Shared,
    shard: u32,
    gate: u32,
) -> Result<bool, AllocError>
    requires hand { IsHand shared.now hand.old }
    requires shard { shard < shard_count shared.now }
    requires gate { gate < gate_count shared.now }
    ensures { CarriesAtShard shared.now shard hand.old hand.new }
{
    match apply(rt, alloc, hand, shared, shard, gate) {
        Ok(()) => Ok(true),
        Err(HandFault::Memory) => Err(AllocError),
        Err(_) => Ok(false),
    }
}
