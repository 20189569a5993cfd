//! A gatekeeper that has stopped, and how what it had begun is found again.
ghost use Rattle.std.specs.Prelude.{◌≡◌, ◌≤◌, [], map, length};
ghost use Rattle.std.specs.HashMap.{spare};
ghost use Rattle.std.specs.Option.{option_map};
ghost use Rattle.gatekeeper.specs.Opened.{as_begun};
ghost use Rattle.gatekeeper.specs.Running.{HoldsPrograms};
ghost use Rattle.gatekeeper.specs.Stopping.{program_in_log, found_flight, begins_with_stamp, last_tx, program_author, tx_after};

use crate::flight::Flight;
use crate::places::Places;
use crate::running::{Programs, start};
use std::marker::Model;
use vector_stamp::Stamp;
use weave_entries::{GateDeed, GateEntry, Message};

/// A program that was begun and not finished: the request's number and its stamp.
#[derive(Clone, Copy, PartialEq, Eq, Debug)]
pub struct Open {
    pub request: u32,
    pub stamp: Stamp,
}

/// What is left of a gatekeeper that stopped: what it sent, and its log. Its clock, its transaction in flight and its
/// running programs are gone. Contracts see it as the gatekeeper that it was.
#[derive(Drop)]
pub struct Stopped {
    pub(crate) home: u32,
    pub(crate) gates: u32,
    pub(crate) shards: u32,
    pub(crate) channels: Vec<Places>,
    pub(crate) nops: Vec<Message>,
    // Nothing is in it: it is the room for the programs that will be handed in again.
    pub(crate) room: Programs,
    pub(crate) log: Vec<GateEntry>,
}

impl Model for Stopped {
    ghost use Rattle.std.specs.Prelude.{◌-◌, vec_len, vec_capacity};
    ghost use Rattle.gatekeeper.specs.Gates.{GateView};
    ghost use Rattle.gatekeeper.specs.Stopping.{IsLeftOver};
    ghost use Rattle.std.specs.HashMap.{spare};

    ghost Value = { GateView };

    ghost view = { λ s. record {
      home = s.home;
      gates = s.gates;
      shards = s.shards;
      log = s.log.items;
      spare = vec_capacity s.log - vec_len s.log;
    } };

    ghost invariant = { λ s.
        IsLeftOver s.home s.shards s.channels.items s.nops.items s.room.entries (spare s.room) s.log.items };
}

// The transaction that was begun last. It looks at the entries from the end to that begin.
fn last_tx(log: &[GateEntry]) -> Option<Flight>
    ensures { option_map as_begun result ≡ last_tx log.now }
{
    let mut place = log.len();
    while place > 0 {
        place -= 1;
        let begun = tx_by(&log[place]);
        if begun.is_some() {
            return begun;
        }
    }
    None
}

// The transaction that the entry begins.
fn tx_by(entry: &GateEntry) -> Option<Flight>
    ensures { option_map as_begun result ≡ tx_after entry.now.author None entry.now.deed }
{
    match entry.deed {
        GateDeed::BeganTx { request, stamp } => Some(Flight {
            author: entry.author,
            request,
            stamp,
        }),
        _ => None,
    }
}

/// The transaction in flight, if one is handed in again: the one that was begun last.
pub fn find_flight(flight: Option<u32>, log: &[GateEntry]) -> Option<Flight>
    ensures { option_map as_begun result ≡ found_flight flight log.now }
{
    match flight {
        Some(_) => last_tx(log),
        None => None,
    }
}

/// Each of these programs is running, under the author of its begin. There is room for them.
pub fn put_all(room: &mut Programs, log: &[GateEntry], running: &[Open])
    requires empty { room.old.entries ≡ [] }
    requires fits { length running.now ≤ spare room.old }
    ensures { HoldsPrograms room.new.entries (map (program_in_log log.now) running.now) }
{
    for at in 0..running.len() {
        let one = running[at];
        let author = author_of(log, &one);
        start(room, author, one.request, &one.stamp);
    }
}

// The author who began the program last with this stamp; 0 if no one did. It looks at the entries from the end to that
// begin.
fn author_of(log: &[GateEntry], one: &Open) -> u32
    ensures { result ≡ program_author one.now log.now }
{
    let mut place = log.len();
    while place > 0 {
        place -= 1;
        let entry = &log[place];
        if begins(&entry.deed, one) {
            return entry.author;
        }
    }
    0
}

// Whether the deed begins this program with this stamp.
fn begins(deed: &GateDeed, one: &Open) -> bool
    ensures { result ≡ begins_with_stamp one.now deed.now }
{
    match deed {
        GateDeed::BeganProgram { request, stamp } => {
            *request == one.request && *stamp == one.stamp
        }
        _ => false,
    }
}
