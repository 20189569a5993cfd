//! Operations one after another.
ghost use Rattle.std.specs.Prelude.{◌≡◌, IsTrue};
ghost use Rattle.graph_ops.specs.VertexOps.{none_refused, state_after_ops};

use graph_ops::{Op, Record, apply_op};
use std::alloc::Global;
use std::process::Abort;

/// The state that operations leave, of which none may be refused.
pub fn after_ops(
    rt: &impl Abort,
    alloc: Global,
    ops: &[Op],
    mut state: Option<Record>,
) -> Option<Record>
    ensures passed { IsTrue (none_refused ops.now state) }
    ensures state { result ≡ state_after_ops ops.now state }
{
    for op in ops {
        if apply_op(alloc, &mut state, op).is_err() {
            panic!(rt; "refused");
        }
    }
    state
}
