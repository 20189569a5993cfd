//! The log of a session. Its author is the session's number.

use std::alloc::{AllocError, Global};
use vector_stamp::Stamp;
use weave_data::Copied;

/// An entry of a session's log.
#[derive(Clone, Copy, PartialEq, Eq, Debug)]
pub struct SessionEntry {
    pub author: u32,
    pub deed: SessionDeed,
}

/// What was done in a session.
#[derive(Clone, Copy, PartialEq, Eq, Debug)]
pub enum SessionDeed {
    /// A request began, with the gatekeeper's stamp.
    Begun { request: u32, stamp: Stamp },
    /// A request has its reply.
    Replied { request: u32 },
}

impl Copied for SessionEntry {
    ghost use Rattle.std.specs.Prelude.{◌≡◌, IfOk};

    fn copy(&self, _alloc: Global) -> Result<Self, AllocError>
        ensures copied { IfOk result (λ copied. copied ≡ self.now) }
        ensures ok { result ≡ Ok self.now }
    {
        Ok(*self)
    }
}

impl Copied for SessionDeed {
    ghost use Rattle.std.specs.Prelude.{◌≡◌, IfOk};

    fn copy(&self, _alloc: Global) -> Result<Self, AllocError>
        ensures copied { IfOk result (λ copied. copied ≡ self.now) }
        ensures ok { result ≡ Ok self.now }
    {
        Ok(*self)
    }
}
