//! A message between replicas.

/// To which replica, and the position of the ask that it brings. The ask is read in the list of a replica that has it
/// there: no list loses an ask, also once its replica has stopped.
#[derive(Clone, Copy, Drop)]
pub(crate) struct Sent {
    pub addressee: u32,
    pub position: u64,
    pub kept_by: u32,
}
