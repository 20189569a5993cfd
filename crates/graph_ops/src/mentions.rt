//! The vertices of a transaction.
ghost use Rattle.std.specs.Prelude.{◌≡◌, IfOk, OnOk};
ghost use Rattle.graph_ops.specs.Mentions.{named_by, named_by_op, with_all_names, with_name};

use crate::op::Op;
use std::alloc::{AllocError, Global};
use weave_data::Name;

/// The vertices that operations name, `get` included, and the target of a join after its vertex, in order of first
/// mention. The one error is out of memory.
pub fn named(alloc: Global, ops: &[Op]) -> Result<Vec<Name>, AllocError>
    ensures { IfOk result (λ names. names.items ≡ named_by ops.now) }
{
    let mut names = Vec::new(alloc);
    for op in ops {
        add_names(&mut names, op)?;
    }
    Ok(names)
}

// Adds the vertices that an operation names.
fn add_names(names: &mut Vec<Name>, op: &Op) -> Result<(), AllocError>
    ensures { OnOk result (names.new.items ≡ with_all_names (named_by_op op.now) names.old.items) }
{
    add(names, op.vertex())?;
    let Some(needed) = op.needs() else {
        return Ok(());
    };
    add(names, needed)
}

fn add(names: &mut Vec<Name>, name: Name) -> Result<(), AllocError>
    ensures { OnOk result (names.new.items ≡ with_name name names.old.items) }
{
    if !names.contains(&name) {
        names.push(name)?;
    }
    Ok(())
}
