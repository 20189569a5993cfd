//! The targets of a vertex's passing edges.
ghost use Rattle.std.specs.Prelude.{◌≡◌, ◌≤◌, ◌<◌, ◌+◌, ◌++◌, ◌∷◌, ◌||◌, [], Some, length, vec_len, vec_capacity, if◌then◌else◌};
ghost use Rattle.std.specs.HashSet.{spare};
ghost use Rattle.weave_data.specs.Names.{same_name};
ghost use Rattle.weave_data.specs.declared.name.Name.{Name};
ghost use Rattle.graph_ops.specs.Mentions.{is_among};
ghost use Rattle.program_defs.specs.Searching.{has_name, new_names};
ghost use Rattle.program_defs.specs.Walks.{targets};

use crate::passing::{Passing, passes};
use graph_ops::Record;
use std::collections::HashSet;
use weave_data::Name;

/// Adds the targets of the passing edges to the names reached, and the new ones to those found. There is room for them.
pub fn look(found: &mut Vec<Name>, reached: &mut HashSet<Name>, pass: &Passing, vertex: &Record)
    requires places { length vertex.now.edges ≤ spare reached.old }
    requires room { vec_len found.old + length vertex.now.edges ≤ vec_capacity found.old }
    ensures found { found.new.items
        ≡ found.old.items ++ new_names (has_name reached.old.keys) (targets pass.now (Some vertex.now)) }
    ensures reached { (v : Name) → has_name reached.new.keys v
        ≡ is_among (targets pass.now (Some vertex.now)) v || has_name reached.old.keys v }
{
    for (_name, edge) in vertex.edges.as_slice() {
        if passes(pass, edge) {
            reach(found, reached, edge.target);
        }
    }
}

// Adds a name to those reached, and to those found if it is new.
fn reach(found: &mut Vec<Name>, reached: &mut HashSet<Name>, name: Name)
    requires places { 1 ≤ spare reached.old }
    requires room { vec_len found.old + 1 ≤ vec_capacity found.old }
    ensures found { found.new.items ≡ found.old.items ++ (if has_name reached.old.keys name then [] else name ∷ []) }
    ensures reached { (v : Name) → has_name reached.new.keys v ≡ same_name name v || has_name reached.old.keys v }
    ensures spare { spare reached.old ≤ spare reached.new + 1 }
    ensures capacity { vec_capacity found.new ≡ vec_capacity found.old }
    ensures len { vec_len found.new ≤ vec_len found.old + 1 }
{
    if reached.contains(&name) {
        return;
    }
    let _ = reached.insert(name);
    found.push_reserved(name);
}
