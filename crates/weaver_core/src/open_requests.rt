//! What the sessions have begun at a gatekeeper and what has not ended there, by the sessions' own logs.
ghost use Rattle.std.specs.Prelude.{◌≡◌, ◌<◌, length, map, slice_get, IfOk};
ghost use Rattle.program_defs.specs.Works.{is_change, is_look};
ghost use Rattle.report_rules.specs.Lookups.{is_some_and};
ghost use Rattle.weaver_core.specs.GateTable.{gate_log_at};
ghost use Rattle.weaver_core.specs.Restarting.{is_change_at, is_look_at, open_change, open_flight, open_program, open_programs, program_handed_in, unsent_of};
ghost use Rattle.weaver_core.specs.Sessions.{log_of_client};

use crate::client::Client;
use crate::gates::Gates;
use gatekeeper::Open;
use program_defs::{Request, Work};
use std::alloc::{AllocError, Global};
use vector_stamp::Stamp;

/// The programs of a gatekeeper for which these sessions wait.
pub(crate) fn open_programs_of(
    alloc: Global,
    clients: &[Client],
    requests: &[Request],
    gate: u32,
) -> Result<Vec<Open>, AllocError>
    ensures { IfOk result (λ found. found.items ≡ open_programs requests.now gate (map log_of_client clients.now)) }
{
    let mut found = Vec::new(alloc);
    for client in clients {
        if let Some(program) = open_program(client, requests, gate) {
            found.push(program)?;
        }
    }
    Ok(found)
}

// The program of the gatekeeper for which the session waits.
fn open_program(client: &Client, requests: &[Request], gate: u32) -> Option<Open>
    ensures { result ≡ open_program requests.now gate (log_of_client client.now) }
{
    let (request, stamp) = client.waits()?;
    program_handed_in(requests, gate, request, stamp)
}

// What waits, if it is a program of the gatekeeper.
fn program_handed_in(requests: &[Request], gate: u32, request: u32, stamp: Stamp) -> Option<Open>
    ensures { result ≡ program_handed_in requests.now gate (request, stamp) }
{
    if is_look_at(requests, gate, request) {
        return Some(Open { request, stamp });
    }
    None
}

/// The transaction of a gatekeeper for which one of these sessions waits, and which was not sent. It looks at the
/// gatekeeper's log once for each session that waits for such a transaction.
pub(crate) fn open_flight_of(
    clients: &[Client],
    gates: &Gates,
    requests: &[Request],
    gate: u32,
) -> Option<u32>
    requires { gate < length gates.now.logs }
    ensures { result ≡ open_flight requests.now gate (gate_log_at gates.now gate) (map log_of_client clients.now) }
{
    for client in clients {
        let unsent = open_change(client, gates, requests, gate);
        if unsent.is_some() {
            return unsent;
        }
    }
    None
}

// The transaction of the gatekeeper for which the session waits, if it was not sent.
fn open_change(client: &Client, gates: &Gates, requests: &[Request], gate: u32) -> Option<u32>
    requires { gate < length gates.now.logs }
    ensures { result ≡ open_change requests.now gate (gate_log_at gates.now gate) (log_of_client client.now) }
{
    let (request, _) = client.waits()?;
    unsent_of(gates, requests, gate, request)
}

// What waits, if it is a transaction of the gatekeeper that was not sent.
fn unsent_of(gates: &Gates, requests: &[Request], gate: u32, request: u32) -> Option<u32>
    requires { gate < length gates.now.logs }
    ensures { result ≡ unsent_of requests.now gate (gate_log_at gates.now gate) request }
{
    if is_change_at(requests, gate, request) && !gates.was_ended(gate, request) {
        return Some(request);
    }
    None
}

// Whether the request is a program of the gatekeeper.
fn is_look_at(requests: &[Request], gate: u32, request: u32) -> bool
    ensures { result ≡ is_some_and (is_look_at gate) (slice_get requests.now request) }
{
    match requests.get(request as usize) {
        Some(asked) => asked.gate == gate && is_look(&asked.work),
        None => false,
    }
}

// Whether the request is a transaction of the gatekeeper.
fn is_change_at(requests: &[Request], gate: u32, request: u32) -> bool
    ensures { result ≡ is_some_and (is_change_at gate) (slice_get requests.now request) }
{
    match requests.get(request as usize) {
        Some(asked) => asked.gate == gate && is_change(&asked.work),
        None => false,
    }
}

fn is_look(work: &Work) -> bool
    ensures { result ≡ is_look work.now }
{
    match work {
        Work::Look(_) => true,
        Work::Change(_) => false,
    }
}

fn is_change(work: &Work) -> bool
    ensures { result ≡ is_change work.now }
{
    match work {
        Work::Look(_) => false,
        Work::Change(_) => true,
    }
}
