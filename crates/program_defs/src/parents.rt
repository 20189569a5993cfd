//! The least vertex before each one.
ghost use Rattle.std.specs.Prelude.{ℕ, ◌≡◌, ◌≤◌, ◌<◌, ◌+◌, ◌^◌, ◌↔◌, IsTrue, Some, None, IfOk, length};
ghost use Rattle.program_defs.specs.Labels.{label_in, AreRows};
ghost use Rattle.program_defs.specs.Parents.{AreParents, IsNoted, IsSeenBefore};

use crate::row::Row;
use std::alloc::{AllocError, Global};

/// For each vertex the least one that has an edge to it which meets its label. The one error is out of memory.
pub(crate) fn least_parents(
    alloc: Global,
    rows: &[Row],
    labels: &[Option<u128>],
) -> Result<Vec<Option<usize>>, AllocError>
    requires rows { AreRows rows.now }
    requires labels { length labels.now ≡ length rows.now }
    ensures { IfOk result (λ parents. AreParents rows.now labels.now (IsSeenBefore (length rows.now)) (length rows.now)
        parents.items) }
{
    let mut parents = none_yet(alloc, rows.len())?;
    for u in 0..rows.len() {
        note_row(rows, labels, parents.as_mut_slice(), u);
    }
    Ok(parents)
}

// No parents.
fn none_yet(alloc: Global, vertices: usize) -> Result<Vec<Option<usize>>, AllocError>
    ensures len { IfOk result (λ parents. length parents.items ≡ vertices) }
    ensures none { IfOk result (λ parents. (v : ℕ) → label_in parents.items v ≡ None) }
{
    let mut parents: Vec<Option<usize>> = Vec::new(alloc);
    parents.resize(vertices, None)?;
    Ok(parents)
}

// Looks at the edges of a vertex.
fn note_row(rows: &[Row], labels: &[Option<u128>], parents: &mut [Option<usize>], u: usize)
    requires rows { AreRows rows.now }
    requires u { u < length rows.now }
    requires len { length parents.old ≡ length rows.now }
    requires before { AreParents rows.now labels.now (IsSeenBefore u) u parents.old }
    ensures { AreParents rows.now labels.now (IsSeenBefore (u + 1)) u parents.new }
{
    let Some(start) = label_of(labels, u) else {
        return;
    };
    for (target, price) in rows[u].as_slice() {
        note(labels, parents, u, start, *target, *price);
    }
}

// Notes an edge of a vertex with this label.
fn note(
    labels: &[Option<u128>],
    parents: &mut [Option<usize>],
    u: usize,
    start: u128,
    v: usize,
    price: u32,
)
    requires { v < length parents.old }
    ensures { IsNoted labels.now u start v price parents.old parents.new }
{
    if meets(labels, v, start, price) && parents[v].is_none() {
        parents[v] = Some(u);
    }
}

// Whether an edge of this price from a vertex with this label meets the label of another one. No sum overflows.
fn meets(labels: &[Option<u128>], v: usize, start: u128, price: u32) -> bool
    ensures { IsTrue result ↔ (label_in labels.now v ≡ Some (start + price)) }
{
    match label_of(labels, v) {
        Some(end) => start <= end && end - start == u128::from(price),
        None => false,
    }
}

// The label of a vertex.
pub(crate) fn label_of(labels: &[Option<u128>], v: usize) -> Option<u128>
    ensures { result ≡ label_in labels.now v }
{
    match labels.get(v) {
        Some(label) => *label,
        None => None,
    }
}

// The parent of a vertex.
pub(crate) fn parent_of(parents: &[Option<usize>], v: usize) -> Option<usize>
    ensures { result ≡ label_in parents.now v }
{
    match parents.get(v) {
        Some(parent) => *parent,
        None => None,
    }
}

// Whether a vertex has this label.
pub(crate) fn has_label(labels: &[Option<u128>], v: usize, label: u128) -> bool
    ensures { IsTrue result ↔ (label_in labels.now v ≡ Some label) }
{
    match labels.get(v) {
        Some(Some(found)) => *found == label,
        _ => false,
    }
}
