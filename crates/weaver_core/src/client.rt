//! A session with its log, its running program and its replies.
ghost use Rattle.std.specs.Prelude.{◌≡◌, ℕ, ◌<◌, ◌≤◌, [], Contains, AllPairs, OnOk, option_copied, true, false};
ghost use Rattle.report_rules.specs.declared.report.Reply.{Reply};
ghost use Rattle.weave_entries.specs.SessionReplay.{FitsSession, RepliesToLast, session_of};
ghost use Rattle.weave_entries.specs.declared.session_log.SessionDeed.TheVariants as deed;
ghost use Rattle.weaver_core.specs.Sessions.{AddsDeed, IsAClient, IsClientOf, IsInTurn, IsSameClient, begun_by_last, is_begin_of, is_open_in, last_request, log_of_client, no_values, open_by_last, request_by, requests_in, spare_of, standing_of, unanswered_in, values_of, values_with_reply};
ghost use Rattle.weaver_core.specs.Reporting.{IsFoundAmong};
ghost use Rattle.weaver_core.specs.Splitting.{begun_by_session, waiting_in};

use crate::walks::Running;
use report_rules::Reply;
use session_stamp::Session;
use session_stamp::laws::a_log_goes_on;
use std::alloc::{AllocError, Global};
use vector_stamp::Stamp;
use weave_entries::laws::{begun_and_replied_are_decided, sessions_go_in_turn};
use weave_entries::{SessionDeed, SessionEntry};

/// How a request is that is to begin.
#[derive(Clone, Copy, PartialEq, Eq, Debug)]
pub enum Standing {
    /// It has begun.
    Twice,
    /// An earlier one of its session has no reply.
    Early,
    /// It is the next one.
    Next,
}

/// A session's client: what it has to begin, what it has begun, and what it was answered. All of it says what the log
/// says, if it is one of a core.
#[derive(Drop)]
pub struct Client {
    /// The session's requests, at the end of the log.
    pub session: Session,
    /// The program that has begun and has no reply, if there is one.
    pub running: Option<Running>,
    /// The replies, in the order of the requests.
    pub replies: Vec<Reply>,
    pub log: Vec<SessionEntry>,
}

impl Client {
    /// A session before its first request. It takes no memory.
    pub(crate) fn new(alloc: Global, requests: Vec<u32>) -> Client
        requires { AllPairs (λ a b. a < b) requests.items }
        ensures requests { requests_in result ≡ requests.items }
        ensures log { log_of_client result ≡ [] }
        ensures values { values_of result ≡ no_values }
        ensures client { (number : ℕ) → IsClientOf number result.session result.log.items }
    {
        a_log_goes_on();
        Client {
            session: Session::new(requests),
            running: None,
            replies: Vec::new(alloc),
            log: Vec::new(alloc),
        }
    }

    /// How one of its requests is. It looks at no more than the last entry.
    pub fn standing(&self, request: u32) -> Standing
        requires client { IsAClient self.now }
        requires among { Contains (requests_in self.now) request }
        ensures standing { result ≡ standing_of request (requests_in self.now) (log_of_client self.now) }
        ensures next { result ≡ Standing.Next
            → IsInTurn (session_of (requests_in self.now) (log_of_client self.now)) request }
    {
        begun_and_replied_are_decided();
        sessions_go_in_turn();
        if has_begun(self.log.as_slice(), request) {
            return Standing::Twice;
        }
        if is_next(&self.session, request) {
            return Standing::Next;
        }
        Standing::Early
    }

    /// Whether one of its requests has begun and has no reply. It looks at no more than the last entry.
    pub fn is_open(&self, request: u32) -> bool
        requires client { IsAClient self.now }
        requires among { Contains (requests_in self.now) request }
        ensures open { result ≡ is_open_in request (log_of_client self.now) }
        ensures last { result ≡ true
            → RepliesToLast (session_of (requests_in self.now) (log_of_client self.now)) request }
    {
        begun_and_replied_are_decided();
        sessions_go_in_turn();
        is_open(self.log.as_slice(), request)
    }

    /// Its first request without a reply, if there is one. It looks at no more than the last entry.
    pub fn first_unanswered(&self) -> Option<u32>
        requires { IsAClient self.now }
        ensures { result ≡ unanswered_in (requests_in self.now) (log_of_client self.now) }
    {
        match self.session.next() {
            Ok(next) => next,
            Err(_) => last_request(self.log.as_slice()),
        }
    }

    /// The request that has begun and has no reply, with its stamp, if there is one. It looks at no more than the last
    /// entry.
    pub(crate) fn waits(&self) -> Option<(u32, Stamp)>
        ensures { result ≡ waiting_in (log_of_client self.now) }
    {
        waiting_in(self.log.as_slice())
    }

    /// The reply to a request, if it has one. It costs a binary search.
    pub(crate) fn reply(&self, request: u32) -> Option<&Reply>
        requires { AllPairs (λ (a b : Reply). a.request < b.request) self.now.replies.items }
        ensures { IsFoundAmong self.now.replies.items request (option_copied result) }
    {
        let replies = self.replies.as_slice();
        match replies.binary_search_by_key(&request, |reply| reply.request) {
            Ok(place) => Some(&replies[place]),
            Err(_) => None,
        }
    }

    /// Takes the room for one more entry and one more reply. The one error is out of memory.
    pub fn reserve(&mut self) -> Result<(), AllocError>
        ensures same { IsSameClient self.old self.new }
        ensures room { OnOk result (1 ≤ spare_of self.new) }
    {
        self.log.reserve(1)?;
        self.replies.reserve(1)?;
        Ok(())
    }

    /// The next request was begun with this stamp, in the session of this number. It takes no memory.
    pub fn begun(&mut self, number: u32, request: u32, stamp: Stamp)
        requires client { IsClientOf number self.old.session self.old.log.items }
        requires room { 1 ≤ spare_of self.old }
        requires turn { FitsSession (session_of (requests_in self.old) (log_of_client self.old))
            (deed.Begun request stamp) }
        ensures begun { AddsDeed number self.old self.new (deed.Begun request stamp) }
        ensures values { values_of self.new ≡ values_of self.old }
    {
        a_log_goes_on();
        self.session.begun(stamp);
        self.log.push_reserved(SessionEntry {
            author: number,
            deed: SessionDeed::Begun { request, stamp },
        });
    }

    /// The last begun request has its reply, in the session of this number, and no program is running. It takes no
    /// memory.
    pub fn replied(&mut self, number: u32, reply: Reply)
        requires client { IsClientOf number self.old.session self.old.log.items }
        requires room { 1 ≤ spare_of self.old }
        requires turn { FitsSession (session_of (requests_in self.old) (log_of_client self.old))
            (deed.Replied reply.request) }
        ensures replied { AddsDeed number self.old self.new (deed.Replied reply.request) }
        ensures values { values_of self.new ≡ values_with_reply (values_of self.old) reply }
    {
        a_log_goes_on();
        self.session.replied();
        self.log.push_reserved(SessionEntry {
            author: number,
            deed: SessionDeed::Replied {
                request: reply.request,
            },
        });
        self.running = None;
        self.replies.push_reserved(reply);
    }
}

// Whether the request is the session's next one, and none waits for its reply.
fn is_next(session: &Session, request: u32) -> bool
    ensures yes { result ≡ true → IsInTurn session.now request }
    ensures no { result ≡ false → IsInTurn session.now request → ⊥ }
{
    match session.next() {
        Ok(Some(next)) => next == request,
        Ok(None) => false,
        Err(_) => false,
    }
}

// Whether the request is at most that of the last entry. In a session's log it has then begun.
fn has_begun(log: &[SessionEntry], request: u32) -> bool
    ensures { result ≡ begun_by_last request log.now }
{
    match log.last() {
        Some(entry) => request <= request_by(&entry.deed),
        None => false,
    }
}

// Whether the last entry is the begin of the request. In a session's log it then has no reply.
fn is_open(log: &[SessionEntry], request: u32) -> bool
    ensures { result ≡ open_by_last request log.now }
{
    match log.last() {
        Some(entry) => begins(&entry.deed, request),
        None => false,
    }
}

// The request of the last entry, if there is one.
fn last_request(log: &[SessionEntry]) -> Option<u32>
    ensures { result ≡ last_request log.now }
{
    match log.last() {
        Some(entry) => Some(request_by(&entry.deed)),
        None => None,
    }
}

// What the last entry begins, if it begins something. In a session's log it then has no reply.
fn waiting_in(log: &[SessionEntry]) -> Option<(u32, Stamp)>
    ensures { result ≡ waiting_in log.now }
{
    match log.last() {
        Some(entry) => begun_by(&entry.deed),
        None => None,
    }
}

// The request that the deed begins, with its stamp.
fn begun_by(deed: &SessionDeed) -> Option<(u32, Stamp)>
    ensures { result ≡ begun_by_session deed.now }
{
    match deed {
        SessionDeed::Begun { request, stamp } => Some((*request, *stamp)),
        SessionDeed::Replied { .. } => None,
    }
}

// The request of a deed.
fn request_by(deed: &SessionDeed) -> u32
    ensures { result ≡ request_by deed.now }
{
    match deed {
        SessionDeed::Begun { request, .. } => *request,
        SessionDeed::Replied { request } => *request,
    }
}

// Whether the deed begins this request.
fn begins(deed: &SessionDeed, request: u32) -> bool
    ensures { result ≡ is_begin_of request deed.now }
{
    match deed {
        SessionDeed::Begun { request: begun, .. } => *begun == request,
        SessionDeed::Replied { .. } => false,
    }
}
