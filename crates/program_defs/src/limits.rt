//! The product's limits on scripts.
ghost use Rattle.std.specs.Prelude.{◌≡◌, ◌↔◌, IsTrue};
ghost use Rattle.std.specs.List.{list_all};
ghost use Rattle.program_defs.specs.Limits.{IsWithinLimits, are_counts_within_limits, is_request_within as request_within};

use crate::script::{Request, Script, Work};
use weave_data::{MOST_GATES, MOST_OPS, MOST_REQUESTS, MOST_SESSIONS, MOST_SHARDS};

impl Script {
    /// Whether the script is within the product's limits: on its gatekeepers, its shards and the number of its
    /// requests, and for each request on its gatekeeper, its session and the number of its operations.
    pub fn is_within_limits(&self) -> bool
        ensures { IsTrue result ↔ IsWithinLimits self.now }
    {
        let few = is_small(self.gates, self.shards, self.requests.as_slice().len());
        few & are_requests_within(self.requests.as_slice(), self.gates)
    }
}

fn is_small(gates: u32, shards: u32, requests: usize) -> bool
    ensures { result ≡ are_counts_within_limits gates shards requests }
{
    let some = (1 <= gates) & (1 <= shards);
    let few = (gates <= MOST_GATES) & (shards <= MOST_SHARDS) & (requests <= MOST_REQUESTS);
    some & few
}

fn are_requests_within(requests: &[Request], gates: u32) -> bool
    ensures { result ≡ list_all (request_within gates) requests.now }
{
    requests
        .iter()
        .all(|request| is_request_within(request, gates))
}

fn is_request_within(request: &Request, gates: u32) -> bool
    ensures { result ≡ request_within gates request.now }
{
    let few = match &request.work {
        Work::Change(ops) => ops.as_slice().len() <= MOST_OPS,
        Work::Look(_) => true,
    };
    (request.gate < gates) & (request.session < MOST_SESSIONS) & few
}
