//! The sessions of a core, by their numbers.
ghost use Rattle.std.specs.Prelude.{◌≡◌, ◌<◌, ◌≤◌, [], None, Contains, length, map, replicate, slice_index_or, option_copied, IfOk, OnOk, true};
ghost use Rattle.std.specs.List.{range_with_len};
ghost use Rattle.weave_data.specs.Limits.{most_requests, most_sessions};
ghost use Rattle.weave_account.specs.Sessions.{requests_of_session};
ghost use Rattle.weave_entries.specs.SessionReplay.{FitsSession, RepliesToLast};
ghost use Rattle.weave_entries.specs.declared.session_log.SessionDeed.TheVariants as deed;
ghost use Rattle.weaver_core.specs.Sessions.{AddsToSession, AreFirstSessions, AreNumbered, AreSameClients, HaveRisingReplies, IsFirstUnanswered, IsInTurn, is_open_at, least_unanswered, lesser_number, log_of_client, no_values, requests_at, requests_in, session_at, standing_at, values_at, values_of, with_reply_at, with_running};
ghost use Rattle.weaver_core.specs.Finishing.{IsOutcomeOf};
ghost use Rattle.weaver_core.specs.GateTable.{gate_log_at};
ghost use Rattle.weaver_core.specs.Restarting.{open_flight, open_programs};
ghost use Rattle.weaver_core.specs.Reporting.{IsFoundAmong};
ghost use Rattle.weaver_core.specs.Noting.{all_noted, with_stamp_noted, noted_all, noted_by};

use crate::client::{Client, Standing};
use crate::gates::Gates;
use crate::open_requests::{open_flight_of, open_programs_of};
use crate::outcome::outcome_of;
use crate::walks::Running;
use gatekeeper::Open;
use program_defs::{Request, Script};
use report_rules::Reply;
use std::alloc::{AllocError, Global};
use std::marker::Model;
use vector_stamp::Stamp;
use weave_account::laws::requests_of_a_session_rise;
use weave_entries::{SessionDeed, SessionEntry};

/// The 64 sessions with their logs, in the order of their numbers. One without requests owns no memory.
#[derive(Drop)]
pub(crate) struct Clients {
    clients: Vec<Client>,
}

impl Model for Clients {
    ghost use Rattle.std.specs.Prelude.{map};
    ghost use Rattle.weaver_core.specs.Sessions.{AreNumbered, ClientTable, log_of_client, requests_in, spare_of, values_of};

    ghost Value = { ClientTable };

    ghost view = { λ c. record {
      requests = map requests_in c.clients.items;
      logs = map log_of_client c.clients.items;
      spares = map spare_of c.clients.items;
      values = map values_of c.clients.items;
    } };

    ghost invariant = { λ c. AreNumbered c.clients.items };
}

impl Clients {
    /// The sessions of a script, before their first requests.
    pub(crate) fn new(alloc: Global, script: &Script) -> Result<Clients, AllocError>
        requires { length script.now.requests ≤ most_requests }
        ensures requests { IfOk result (λ made. made.requests
            ≡ map (requests_of_session script.now) (range_with_len 0 most_sessions)) }
        ensures logs { IfOk result (λ made. made.logs ≡ replicate most_sessions []) }
        ensures values { IfOk result (λ made. made.values ≡ replicate most_sessions no_values) }
    {
        let clients = first_clients(alloc, script)?;
        Ok(Clients { clients })
    }

    /// These sessions, each at the end of its log, in the order of their numbers. It takes no memory.
    pub(crate) fn of(clients: Vec<Client>) -> Clients
        requires { AreNumbered clients.items }
        ensures requests { result.requests ≡ map requests_in clients.items }
        ensures logs { result.logs ≡ map log_of_client clients.items }
        ensures values { result.values ≡ map values_of clients.items }
    {
        Clients { clients }
    }

    /// The sessions, in the order of their numbers. It takes no memory.
    pub(crate) fn into_clients(self) -> Vec<Client>
        ensures numbered { AreNumbered result.items }
        ensures requests { map requests_in result.items ≡ self.requests }
        ensures logs { map log_of_client result.items ≡ self.logs }
        ensures values { map values_of result.items ≡ self.values }
    {
        self.clients
    }

    /// How a request of a session is that is to begin.
    pub(crate) fn standing(&self, session: u32, request: u32) -> Standing
        requires there { session < length self.now.logs }
        requires among { Contains (requests_at self.now session) request }
        ensures standing { result ≡ standing_at self.now session request }
        ensures next { result ≡ Standing.Next → IsInTurn (session_at self.now session) request }
    {
        self.clients[session as usize].standing(request)
    }

    /// Whether a request of a session has begun and has no reply.
    pub(crate) fn is_open(&self, session: u32, request: u32) -> bool
        requires there { session < length self.now.logs }
        requires among { Contains (requests_at self.now session) request }
        ensures open { result ≡ is_open_at self.now session request }
        ensures last { result ≡ true → RepliesToLast (session_at self.now session) request }
    {
        self.clients[session as usize].is_open(request)
    }

    /// The first request without a reply, of that many; their number if each has one. It looks once at each session.
    pub(crate) fn first_unanswered(&self, requests: u32) -> u32
        ensures { IsFirstUnanswered self.now requests result }
    {
        first_unanswered_of(self.clients.as_slice(), requests)
    }

    /// The stamp that was begun last in a session.
    pub(crate) fn last(&self, session: u32) -> Option<Stamp>
        requires { session < length self.now.logs }
        ensures { result ≡ (session_at self.now session).last }
    {
        self.clients[session as usize].session.last()
    }

    /// Takes the room for one more entry and one more reply of a session. The one error is out of memory.
    pub(crate) fn reserve(&mut self, session: u32) -> Result<(), AllocError>
        requires { session < length self.old.logs }
        ensures same { AreSameClients self.old self.new }
        ensures room { OnOk result (1 ≤ slice_index_or self.new.spares session 0) }
    {
        let client = &mut self.clients[session as usize];
        client.reserve()
    }

    /// The next request of a session was begun with this stamp. It takes no memory.
    pub(crate) fn begun(&mut self, session: u32, request: u32, stamp: Stamp)
        requires there { session < length self.old.logs }
        requires room { 1 ≤ slice_index_or self.old.spares session 0 }
        requires turn { FitsSession (session_at self.old session) (deed.Begun request stamp) }
        ensures begun { AddsToSession self.old self.new session (deed.Begun request stamp) }
        ensures values { self.new.values ≡ self.old.values }
    {
        let client = &mut self.clients[session as usize];
        client.begun(session, request, stamp);
    }

    /// The last begun request of a session has its reply, and no program of the session is running. It takes no memory.
    pub(crate) fn replied(&mut self, session: u32, reply: Reply)
        requires there { session < length self.old.logs }
        requires room { 1 ≤ slice_index_or self.old.spares session 0 }
        requires turn { FitsSession (session_at self.old session) (deed.Replied reply.request) }
        ensures replied { AddsToSession self.old self.new session (deed.Replied reply.request) }
        ensures values { self.new.values ≡ with_reply_at self.old.values session reply }
    {
        let client = &mut self.clients[session as usize];
        client.replied(session, reply);
    }

    /// The program that is running in a session, if there is one, is taken out.
    pub(crate) fn take(&mut self, session: u32) -> Option<Running>
        requires { session < length self.old.logs }
        ensures taken { result ≡ (values_at self.old.values session).running }
        ensures left { self.new ≡ record self.old { values = with_running self.old.values session None } }
    {
        let client = &mut self.clients[session as usize];
        client.running.take()
    }

    /// This program is running in a session, or none.
    pub(crate) fn put(&mut self, session: u32, running: Option<Running>)
        requires { session < length self.old.logs }
        ensures { self.new ≡ record self.old { values = with_running self.old.values session running } }
    {
        let client = &mut self.clients[session as usize];
        client.running = running;
    }

    /// The reply to a request of a session, if it has one. It costs a binary search among the session's replies.
    pub(crate) fn reply(&self, session: u32, request: u32) -> Option<&Reply>
        requires there { session < length self.now.logs }
        requires rising { HaveRisingReplies self.now.values }
        ensures { IsFoundAmong (values_at self.now.values session).replies request (option_copied result) }
    {
        self.clients[session as usize].reply(request)
    }

    /// The answer of the program that is running in a session, if it has no next vertex. The one error is out of
    /// memory.
    pub(crate) fn outcome(&self, alloc: Global, session: u32) -> Result<Option<Reply>, AllocError>
        requires { session < length self.now.logs }
        ensures { IfOk result (IsOutcomeOf (values_at self.now.values session).running) }
    {
        outcome_of(alloc, &self.clients[session as usize].running)
    }

    /// The programs of a gatekeeper for which sessions wait, in the order of the sessions. The one error is out of
    /// memory.
    pub(crate) fn open_programs(
        &self,
        alloc: Global,
        requests: &[Request],
        gate: u32,
    ) -> Result<Vec<Open>, AllocError>
        ensures { IfOk result (λ found. found.items ≡ open_programs requests.now gate self.now.logs) }
    {
        open_programs_of(alloc, self.clients.as_slice(), requests, gate)
    }

    /// The transaction of a gatekeeper for which a session waits, and which was not sent.
    pub(crate) fn open_flight(&self, gates: &Gates, requests: &[Request], gate: u32) -> Option<u32>
        requires { gate < length gates.now.logs }
        ensures { result ≡ open_flight requests.now gate (gate_log_at gates.now gate) self.now.logs }
    {
        open_flight_of(self.clients.as_slice(), gates, requests, gate)
    }

    /// The stamps of that many requests, by request. It looks once at each entry.
    pub(crate) fn stamps(
        &self,
        alloc: Global,
        requests: usize,
    ) -> Result<Vec<Option<Stamp>>, AllocError>
        ensures { IfOk result (λ stamps. stamps.items ≡ all_noted (replicate requests None) self.now.logs) }
    {
        stamps_of(alloc, self.clients.as_slice(), requests)
    }
}

// The first sessions of a script, before their first requests.
fn first_clients(alloc: Global, script: &Script) -> Result<Vec<Client>, AllocError>
    requires { length script.now.requests ≤ most_requests }
    ensures { IfOk result (λ clients. AreFirstSessions script.now most_sessions clients.items) }
{
    requests_of_a_session_rise();
    let mut clients = Vec::new(alloc);
    for number in 0..64 {
        let requests = requests_of(alloc, script, number)?;
        let client = Client::new(alloc, requests);
        clients.push(client)?;
    }
    Ok(clients)
}

// The requests of a session, in script order.
fn requests_of(alloc: Global, script: &Script, session: u32) -> Result<Vec<u32>, AllocError>
    requires { length script.now.requests ≤ most_requests }
    ensures { IfOk result (λ found. found.items ≡ requests_of_session script.now session) }
{
    let requests = script.requests.as_slice();
    let mut found = Vec::new(alloc);
    for r in 0..requests.len() as u32 {
        if requests[r as usize].session == session {
            found.push(r)?;
        }
    }
    Ok(found)
}

// The least of a number and these sessions' first requests without a reply.
fn first_unanswered_of(clients: &[Client], requests: u32) -> u32
    requires { AreNumbered clients.now }
    ensures { result ≡ least_unanswered requests clients.now }
{
    let mut first = requests;
    for client in clients {
        first = lesser(first, client.first_unanswered());
    }
    first
}

// The lesser of a number and one that may be there.
fn lesser(number: u32, other: Option<u32>) -> u32
    ensures { result ≡ lesser_number number other }
{
    match other {
        Some(other) => number.min(other),
        None => number,
    }
}

fn no_stamps(alloc: Global, requests: usize) -> Result<Vec<Option<Stamp>>, AllocError>
    ensures { IfOk result (λ stamps. stamps.items ≡ replicate requests None) }
{
    let mut stamps = Vec::new(alloc);
    for _request in 0..requests {
        stamps.push(None)?;
    }
    Ok(stamps)
}

// The stamps of that many requests, as these sessions began them.
fn stamps_of(
    alloc: Global,
    clients: &[Client],
    requests: usize,
) -> Result<Vec<Option<Stamp>>, AllocError>
    ensures { IfOk result (λ stamps.
        stamps.items ≡ all_noted (replicate requests None) (map log_of_client clients.now)) }
{
    let mut stamps = no_stamps(alloc, requests)?;
    for client in clients {
        note_begins(client.log.as_slice(), &mut stamps);
    }
    Ok(stamps)
}

// Notes the stamp of each request that was begun, at the request's place, unless there is one.
fn note_begins(log: &[SessionEntry], stamps: &mut Vec<Option<Stamp>>)
    ensures { stamps.new.items ≡ noted_all stamps.old.items log.now }
{
    for entry in log {
        note_deed(stamps, &entry.deed);
    }
}

fn note_deed(stamps: &mut Vec<Option<Stamp>>, deed: &SessionDeed)
    ensures { stamps.new.items ≡ noted_by stamps.old.items deed.now }
{
    match deed {
        SessionDeed::Begun { request, stamp } => note(stamps, *request, *stamp),
        SessionDeed::Replied { .. } => {}
    }
}

// Notes a request's stamp, unless it has one.
fn note(stamps: &mut Vec<Option<Stamp>>, request: u32, stamp: Stamp)
    ensures { stamps.new.items ≡ with_stamp_noted stamps.old.items request stamp }
{
    let place = request as usize;
    if place < stamps.len() {
        let first = stamps[place].or(Some(stamp));
        stamps[place] = first;
    }
}
