//! A session.
ghost use Rattle.std.specs.Prelude.{◌≡◌, true, false, IsSome, IfOk, OnErr};
ghost use Rattle.weave_entries.specs.SessionReplay.{session_start, next_request, with_begun, with_reply};

use std::marker::Model;
use vector_stamp::Stamp;

/// The last begun request has no reply yet.
#[derive(Clone, Copy, PartialEq, Eq, Debug)]
pub struct Early;

/// The requests of a session. Contracts see them with how many were begun, whether the last one waits for its reply,
/// and that one's stamp.
#[derive(Drop)]
pub struct Session {
    requests: Vec<u32>,
    begun: usize,
    waits: bool,
    last: Option<Stamp>,
}

impl Model for Session {
    ghost use Rattle.weave_entries.specs.SessionReplay.{SessionState};

    ghost Value = { SessionState };

    ghost view = { λ s. record { requests = s.requests.items; begun = s.begun; waits = s.waits; last = s.last } };
}

impl Session {
    /// A session before its first request.
    pub fn new(requests: Vec<u32>) -> Session
        ensures { result ≡ session_start requests.items }
    {
        Session {
            requests,
            begun: 0,
            waits: false,
            last: None,
        }
    }

    /// The next request, or `None` if all have begun and the last has its reply.
    pub fn next(&self) -> Result<Option<u32>, Early>
        ensures next { IfOk result (λ next. next ≡ next_request self.now) }
        ensures replied { IfOk result (λ _. self.now.waits ≡ false) }
        ensures early { OnErr result (self.now.waits ≡ true) }
    {
        if self.waits {
            return Err(Early);
        }
        Ok(self.requests.get(self.begun).copied())
    }

    /// The next request was begun, with this stamp.
    pub fn begun(&mut self, stamp: Stamp)
        requires replied { self.old.waits ≡ false }
        requires next { IsSome (next_request self.old) }
        ensures { self.new ≡ with_begun stamp self.old }
    {
        self.begun += 1;
        self.waits = true;
        self.last = Some(stamp);
    }

    /// The last begun request has its reply.
    pub fn replied(&mut self)
        requires { self.old.waits ≡ true }
        ensures { self.new ≡ with_reply self.old }
    {
        self.waits = false;
    }

    /// The stamp of the last begun request, or `None` if none has begun.
    pub fn last(&self) -> Option<Stamp>
        ensures { result ≡ self.now.last }
    {
        self.last
    }
}
