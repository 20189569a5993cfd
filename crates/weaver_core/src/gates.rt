//! The gatekeepers of a core, by their numbers.
ghost use Rattle.std.specs.Prelude.{◌≡◌, ◌↔◌, ◌<◌, ◌≤◌, ◌&&◌, ℕ, [], None, length, map, replicate, not, nat_lt, is_some, option_copied, IsTrue, IsSome, Some, IfOk, OnOk, OnErr};
ghost use Rattle.std.specs.List.{list_all, list_any};
ghost use Rattle.std.specs.Option.{ForSome, option_map};
ghost use Rattle.weave_data.specs.Limits.{most_gates, most_shards};
ghost use Rattle.vector_stamp.specs.Clocks.{counts_no_more};
ghost use Rattle.vector_stamp.specs.Order.{has_64_bits, stamp_before};
ghost use Rattle.program_defs.specs.Works.{is_change};
ghost use Rattle.weave_entries.specs.declared.gate_log.GateDeed.TheVariants as deed;
ghost use Rattle.shard_queue.specs.Outbox.{sent_as};
ghost use Rattle.weave_entries.specs.GateReplay.{BegunRequest, begun_stamp, channel_of, clock_of, flight_of, is_begun, running_of};
ghost use Rattle.weave_entries.specs.Sending.{IsCountsOf, messages_of};
ghost use Rattle.gatekeeper.specs.Answers.{IsRefusedWhere};
ghost use Rattle.gatekeeper.specs.Gates.{Adds, SendsFlight};
ghost use Rattle.gatekeeper.specs.Opened.{as_begun};
ghost use Rattle.gatekeeper.specs.Stopping.{AreLeftOpen};
ghost use Rattle.step_rules.specs.Entries.{begin_deed};
ghost use Rattle.weaver_core.specs.Finishing.{begins_program, last_author};
ghost use Rattle.weaver_core.specs.GateTable.{AddsToGate, AreFirstGates, AreGatesInOrder, IsSameGate, has_landed, gate_log_at, log_of_gate};
ghost use Rattle.weaver_core.specs.Messages.{nop_deed};
ghost use Rattle.weaver_core.specs.Restarting.{ends_request, was_ended};

use crate::returning::restart_at;
use gatekeeper::{Flight, Gate, GateFault, Open};
use graph_ops::Op;
use program_defs::Work;
use std::alloc::{AllocError, Global};
use std::marker::Model;
use vector_stamp::{Clock, Stamp};
use weave_entries::{GateDeed, GateEntry, Message, Verdict};

/// The gatekeepers, in the order of their numbers. Contracts see the number of shards and the logs.
#[derive(Drop)]
pub(crate) struct Gates {
    shards: u32,
    gates: Vec<Gate>,
}

impl Model for Gates {
    ghost use Rattle.std.specs.Prelude.{length, map};
    ghost use Rattle.weaver_core.specs.GateTable.{GateTable, AreGatesInOrder, log_of_gate};

    ghost Value = { GateTable };

    ghost view = { λ g. record {
      shards = g.shards;
      logs = map log_of_gate g.gates.items;
    } };

    ghost invariant = { λ g. AreGatesInOrder (length g.gates.items) g.shards g.gates.items };
}

impl Gates {
    /// The gatekeepers of a script, before their first events.
    pub(crate) fn new(alloc: Global, gates: u32, shards: u32) -> Result<Gates, AllocError>
        requires gates { gates ≤ most_gates }
        requires one_shard { 1 ≤ shards }
        requires shards { shards ≤ most_shards }
        ensures { IfOk result (λ made. made ≡ record { shards = shards; logs = replicate gates [] }) }
    {
        let made = first_gates(alloc, gates, shards)?;
        Ok(Gates {
            shards,
            gates: made,
        })
    }

    /// These gatekeepers, which are made for this number of shards and are in order. It takes no memory.
    pub(crate) fn of(shards: u32, gates: Vec<Gate>) -> Gates
        requires { AreGatesInOrder (length gates.items) shards gates.items }
        ensures { result ≡ record { shards = shards; logs = map log_of_gate gates.items } }
    {
        Gates { shards, gates }
    }

    /// The gatekeepers, in order. It takes no memory.
    pub(crate) fn into_gates(self) -> Vec<Gate>
        ensures order { AreGatesInOrder (length result.items) self.shards result.items }
        ensures logs { map log_of_gate result.items ≡ self.logs }
    {
        self.gates
    }

    /// The transaction in flight.
    pub(crate) fn flight(&self, gate: u32) -> Option<Flight>
        requires { gate < length self.now.logs }
        ensures { option_map as_begun result ≡ flight_of (gate_log_at self.now gate) }
    {
        self.gates[gate as usize].flight()
    }

    /// Whether no transaction is in flight at any of them.
    pub(crate) fn none_in_flight(&self) -> bool
        ensures { IsTrue result ↔ ((gate : ℕ) → flight_of (gate_log_at self.now gate) ≡ None) }
    {
        none_in_flight(self.gates.as_slice())
    }

    /// The clock.
    pub(crate) fn say(&self, gate: u32) -> Clock
        requires { gate < length self.now.logs }
        ensures { result ≡ clock_of gate (gate_log_at self.now gate) }
    {
        self.gates[gate as usize].say()
    }

    /// Begins a request, by the kind of its work. The last stamp that its session began is heard before the tick.
    pub(crate) fn begin(
        &mut self,
        alloc: Global,
        gate: u32,
        request: u32,
        work: &Work,
        last: Option<Stamp>,
    ) -> Result<Stamp, GateFault>
        requires { gate < length self.old.logs }
        ensures stamp { IfOk result (λ stamp.
            stamp ≡ begun_stamp gate (clock_of gate (gate_log_at self.old gate)) last) }
        ensures bits { IfOk result (λ stamp. IsTrue (has_64_bits stamp.clock)) }
        ensures after { IfOk result (λ stamp. ForSome last (λ heard.
            IsTrue (counts_no_more gate (clock_of gate (gate_log_at self.old gate)) heard.clock)
            → IsTrue (stamp_before heard stamp))) }
        ensures entry { IfOk result (λ stamp. AddsToGate self.old self.new gate 0 (begin_deed request stamp work.now)) }
        ensures busy { IsRefusedWhere GateFault.Busy
            (is_change work.now && is_some (flight_of (gate_log_at self.old gate))) result }
        ensures refused { OnErr result (self.new ≡ self.old) }
    {
        let gate = &mut self.gates[gate as usize];
        stamp_at(gate, alloc, request, work, last)
    }

    /// Sends the messages of the transaction in flight, by its verdict, and ends the flight. The author is that of its
    /// begin.
    pub(crate) fn send(
        &mut self,
        alloc: Global,
        gate: u32,
        author: u32,
        ops: &[Op],
        verdict: &Verdict,
    ) -> Result<(), AllocError>
        requires there { gate < length self.old.logs }
        requires flies { IsSome (flight_of (gate_log_at self.old gate)) }
        requires author { ForSome (flight_of (gate_log_at self.old gate)) (λ flight. flight.author ≡ author) }
        requires counts { IsCountsOf ops.now verdict.now }
        ensures entry { OnOk result ((flight : BegunRequest) → flight_of (gate_log_at self.old gate) ≡ Some flight
            → AddsToGate self.old self.new gate author (deed.Sent flight.request
            (messages_of self.old.shards (gate_log_at self.old gate) flight ops.now verdict.now))) }
        ensures refused { OnErr result (self.new ≡ self.old) }
    {
        let gate = &mut self.gates[gate as usize];
        send_at(gate, alloc, author, ops, verdict)
    }

    /// Sends an empty message to a shard, unless a transaction is in flight.
    pub(crate) fn nop(&mut self, alloc: Global, gate: u32, shard: u32) -> Result<(), GateFault>
        requires there { gate < length self.old.logs }
        requires shard { shard < self.old.shards }
        ensures entry { OnOk result
            (AddsToGate self.old self.new gate 0 (nop_deed gate shard (gate_log_at self.old gate))) }
        ensures busy { IsRefusedWhere GateFault.Busy (is_some (flight_of (gate_log_at self.old gate))) result }
        ensures refused { OnErr result (self.new ≡ self.old) }
    {
        let gate = &mut self.gates[gate as usize];
        nop_at(gate, alloc, shard)
    }

    /// The message of this number to a shard as it was sent, or `None` if it was not.
    pub(crate) fn fetch(&self, gate: u32, shard: u32, number: u64) -> Option<&Message>
        requires { gate < length self.now.logs }
        ensures { option_copied result ≡ sent_as number (channel_of shard (gate_log_at self.now gate)) }
    {
        self.gates[gate as usize].fetch(shard, number)
    }

    /// The author who began a program last; 0 if no one did. It looks at the entries from the end to that begin.
    pub(crate) fn author(&self, gate: u32, request: u32) -> u32
        requires { gate < length self.now.logs }
        ensures { result ≡ last_author request (gate_log_at self.now gate) }
    {
        author_in(self.gates[gate as usize].log(), request)
    }

    /// Whether a request was sent or finished. It looks at the entries from the end to that one.
    pub(crate) fn was_ended(&self, gate: u32, request: u32) -> bool
        requires { gate < length self.now.logs }
        ensures { result ≡ was_ended request (gate_log_at self.now gate) }
    {
        was_ended_in(self.gates[gate as usize].log(), request)
    }

    /// Finishes a program that is running, in the name of the author of its begin.
    pub(crate) fn finish(
        &mut self,
        alloc: Global,
        gate: u32,
        author: u32,
        request: u32,
    ) -> Result<(), AllocError>
        requires there { gate < length self.old.logs }
        requires runs { IsTrue (list_any (is_begun author request) (running_of (gate_log_at self.old gate))) }
        ensures entry { OnOk result (AddsToGate self.old self.new gate author (deed.Finished request)) }
        ensures refused { OnErr result (self.new ≡ self.old) }
    {
        let gate = &mut self.gates[gate as usize];
        finish_at(gate, alloc, author, request)
    }

    /// Hears a clock.
    pub(crate) fn hear(&mut self, alloc: Global, gate: u32, clock: &Clock) -> Result<(), AllocError>
        requires { gate < length self.old.logs }
        ensures heard { OnOk result (AddsToGate self.old self.new gate 0 (deed.Heard clock.now)) }
        ensures refused { OnErr result (self.new ≡ self.old) }
    {
        let gate = &mut self.gates[gate as usize];
        hear_at(gate, alloc, clock)
    }

    /// Raises the epoch.
    pub(crate) fn raise(&mut self, alloc: Global, gate: u32, epoch: u64) -> Result<(), GateFault>
        requires { gate < length self.old.logs }
        ensures raised { OnOk result (AddsToGate self.old self.new gate 0 (deed.Raised epoch)) }
        ensures old { IsRefusedWhere GateFault.Old
            (not (nat_lt (clock_of gate (gate_log_at self.old gate)).epoch epoch)) result }
        ensures refused { OnErr result (self.new ≡ self.old) }
    {
        let gate = &mut self.gates[gate as usize];
        raise_at(gate, alloc, epoch)
    }

    /// The gatekeeper stops, and returns in that epoch, if that is above its own. What it had begun is handed in again.
    pub(crate) fn restart(
        &mut self,
        alloc: Global,
        gate: u32,
        epoch: u64,
        flight: Option<u32>,
        running: Vec<Open>,
    ) -> Result<(), GateFault>
        requires there { gate < length self.old.logs }
        requires left { AreLeftOpen flight running.items (gate_log_at self.old gate) }
        ensures raised { OnOk result (AddsToGate self.old self.new gate 0 (deed.Raised epoch)) }
        ensures old { IsRefusedWhere GateFault.Old
            (not (nat_lt (clock_of gate (gate_log_at self.old gate)).epoch epoch)) result }
        ensures refused { OnErr result (self.new ≡ self.old) }
    {
        let gate = &mut self.gates[gate as usize];
        restart_at(gate, alloc, epoch, flight, running)
    }
}

// The first gatekeepers, before their first events.
fn first_gates(alloc: Global, gates: u32, shards: u32) -> Result<Vec<Gate>, AllocError>
    requires gates { gates ≤ most_gates }
    requires one_shard { 1 ≤ shards }
    requires shards { shards ≤ most_shards }
    ensures { IfOk result (λ made. AreFirstGates gates gates shards made.items) }
{
    let mut made = Vec::new(alloc);
    for home in 0..gates {
        made.push(Gate::new(alloc, home, gates, shards)?)?;
    }
    Ok(made)
}

// Whether none of these has a transaction in flight.
fn none_in_flight(gates: &[Gate]) -> bool
    ensures { result ≡ list_all has_landed gates.now }
{
    for gate in gates {
        if gate.flight().is_some() {
            return false;
        }
    }
    true
}

// The gatekeeper stamps a request.
fn stamp_at(
    gate: &mut Gate,
    alloc: Global,
    request: u32,
    work: &Work,
    last: Option<Stamp>,
) -> Result<Stamp, GateFault>
    ensures stamp { IfOk result (λ stamp.
        stamp ≡ begun_stamp gate.old.home (clock_of gate.old.home gate.old.log) last) }
    ensures bits { IfOk result (λ stamp. IsTrue (has_64_bits stamp.clock)) }
    ensures after { IfOk result (λ stamp. ForSome last (λ heard.
        IsTrue (counts_no_more gate.old.home (clock_of gate.old.home gate.old.log) heard.clock)
        → IsTrue (stamp_before heard stamp))) }
    ensures entry { IfOk result (λ stamp. Adds gate.old gate.new 0 (begin_deed request stamp work.now)) }
    ensures busy { IsRefusedWhere GateFault.Busy (is_change work.now && is_some (flight_of gate.old.log)) result }
    ensures refused { OnErr result (gate.new ≡ gate.old) }
{
    match work {
        Work::Change(_) => gate.begin_tx(alloc, 0, request, last),
        Work::Look(_) => Ok(gate.begin_program(alloc, 0, request, last)?),
    }
}

// The author of the last entry that begins this program; 0 if none does.
fn author_in(log: &[GateEntry], request: u32) -> u32
    ensures { result ≡ last_author request log.now }
{
    let mut place = log.len();
    while place > 0 {
        place -= 1;
        let entry = &log[place];
        if begins(&entry.deed, request) {
            return entry.author;
        }
    }
    0
}

// Whether the deed begins this program.
fn begins(deed: &GateDeed, request: u32) -> bool
    ensures { result ≡ begins_program request deed.now }
{
    match deed {
        GateDeed::BeganProgram { request: begun, .. } => *begun == request,
        _ => false,
    }
}

// Whether an entry sends or finishes this request.
fn was_ended_in(log: &[GateEntry], request: u32) -> bool
    ensures { result ≡ was_ended request log.now }
{
    let mut place = log.len();
    while place > 0 {
        place -= 1;
        if ends(&log[place].deed, request) {
            return true;
        }
    }
    false
}

// Whether the deed sends or finishes this request.
fn ends(deed: &GateDeed, request: u32) -> bool
    ensures { result ≡ ends_request request deed.now }
{
    match deed {
        GateDeed::Sent { request: ended, .. } => *ended == request,
        GateDeed::Finished { request: ended } => *ended == request,
        _ => false,
    }
}

// The gatekeeper finishes a program that is running.
fn finish_at(gate: &mut Gate, alloc: Global, author: u32, request: u32) -> Result<(), AllocError>
    requires { IsTrue (list_any (is_begun author request) (running_of gate.old.log)) }
    ensures entry { OnOk result (Adds gate.old gate.new author (deed.Finished request)) }
    ensures refused { OnErr result (gate.new ≡ gate.old) }
{
    match gate.finish(alloc, author, request) {
        Ok(()) => Ok(()),
        Err(_) => Err(AllocError),
    }
}

// The gatekeeper hears a clock.
fn hear_at(gate: &mut Gate, alloc: Global, clock: &Clock) -> Result<(), AllocError>
    ensures heard { OnOk result (Adds gate.old gate.new 0 (deed.Heard clock.now)) }
    ensures refused { OnErr result (gate.new ≡ gate.old) }
{
    gate.reserve(alloc, 1)?;
    gate.hear(0, clock);
    Ok(())
}

// The gatekeeper is in that epoch, if it is above its own.
fn raise_at(gate: &mut Gate, alloc: Global, epoch: u64) -> Result<(), GateFault>
    ensures raised { OnOk result (Adds gate.old gate.new 0 (deed.Raised epoch)) }
    ensures old { IsRefusedWhere GateFault.Old
        (not (nat_lt (clock_of gate.old.home gate.old.log).epoch epoch)) result }
    ensures refused { OnErr result (IsSameGate gate.old gate.new) }
{
    gate.reserve(alloc, 1)?;
    gate.epoch(0, epoch)
}

// The gatekeeper sends an empty message.
fn nop_at(gate: &mut Gate, alloc: Global, shard: u32) -> Result<(), GateFault>
    requires { shard < gate.old.shards }
    ensures entry { OnOk result (Adds gate.old gate.new 0 (nop_deed gate.old.home shard gate.old.log)) }
    ensures busy { IsRefusedWhere GateFault.Busy (is_some (flight_of gate.old.log)) result }
    ensures refused { OnErr result (gate.new ≡ gate.old) }
{
    match gate.nop(alloc, 0, shard) {
        Ok(_) => Ok(()),
        Err(fault) => Err(fault),
    }
}

// The gatekeeper sends the messages of the transaction in flight.
fn send_at(
    gate: &mut Gate,
    alloc: Global,
    author: u32,
    ops: &[Op],
    verdict: &Verdict,
) -> Result<(), AllocError>
    requires author { ForSome (flight_of gate.old.log) (λ flight. flight.author ≡ author) }
    requires counts { IsCountsOf ops.now verdict.now }
    ensures entry { OnOk result (SendsFlight gate.old gate.new author ops.now verdict.now) }
    ensures refused { OnErr result (gate.new ≡ gate.old) }
{
    match gate.send(alloc, author, ops, verdict) {
        Ok(()) => Ok(()),
        Err(_) => Err(AllocError),
    }
}
