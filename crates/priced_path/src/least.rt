//! Least prices over numbered vertices.
ghost use Rattle.std.specs.Prelude.{ℕ, ◌≡◌, ◌≤◌, ◌<◌, ◌^◌, ◌↔◌, IsTrue, Some, None, IfOk, OnOk, length};
ghost use Rattle.program_defs.specs.Labels.{label_in, row_in, AreRows, IsCertificate};
ghost use Rattle.priced_path.specs.Searches.{IsNoneLeft, IsLeftFrom};
ghost use Rattle.priced_path.specs.Tables.{IsOpenIn, IsSearchOver, IsOffered, work_left};

use crate::opened::Opened;
use program_defs::Row;
use std::alloc::{AllocError, Global};

/// The least price from the start to each vertex to which edges lead, and to no other. The one error is out of memory.
pub fn least_prices(
    alloc: Global,
    rows: &[Row],
    start: usize,
) -> Result<Vec<Option<u128>>, AllocError>
    requires start { start < length rows.now }
    requires rows { AreRows rows.now }
    ensures len { IfOk result (λ labels. length labels.items ≡ length rows.now) }
    ensures labels { IfOk result (λ labels. IsCertificate (row_in rows.now) start (label_in labels.items)) }
{
    let mut opened = Opened::new(alloc);
    let mut labels = first_labels(alloc, &mut opened, rows.len(), start)?;
    while let Some((label, v)) = opened.take() {
        if has_label(labels.as_slice(), v, label) {
            look(labels.as_mut_slice(), &mut opened, rows, v, label)?;
        }
    }
    Ok(labels)
}

// The labels before the first edge: the start alone has one.
fn first_labels(
    alloc: Global,
    opened: &mut Opened,
    vertices: usize,
    start: usize,
) -> Result<Vec<Option<u128>>, AllocError>
    requires { start < vertices }
    ensures len { IfOk result (λ labels. length labels.items ≡ vertices) }
    ensures start { IfOk result (λ labels. label_in labels.items start ≡ Some 0) }
    ensures others { IfOk result (λ labels. (v : ℕ) → (v ≡ start → ⊥) → label_in labels.items v ≡ None) }
    ensures opened { OnOk result (IsOpenIn opened.new start 0) }
{
    let mut labels: Vec<Option<u128>> = Vec::new(alloc);
    labels.resize(vertices, None)?;
    labels[start] = Some(0);
    opened.put(0, start)?;
    Ok(labels)
}

// Looks at the edges of a vertex with this label.
fn look(
    labels: &mut [Option<u128>],
    opened: &mut Opened,
    rows: &[Row],
    v: usize,
    label: u128,
) -> Result<(), AllocError>
    requires rows { AreRows rows.now }
    requires few { length labels.old < 2 ^ 63 }
    requires label { label_in labels.old v ≡ Some label }
    requires going { (start : ℕ) × IsSearchOver rows.now start labels.old opened.old (IsLeftFrom v 0) }
    ensures going { OnOk result ((start : ℕ) → IsSearchOver rows.now start labels.old opened.old (IsLeftFrom v 0)
        → IsSearchOver rows.now start labels.new opened.new IsNoneLeft) }
    ensures less { OnOk result (work_left labels.new opened.new ≤ work_left labels.old opened.old) }
{
    for (target, price) in rows[v].as_slice() {
        offer(labels, opened, *target, label + *price as u128)?;
    }
    Ok(())
}

// Whether a vertex has this label.
fn has_label(labels: &[Option<u128>], v: usize, label: u128) -> bool
    ensures { IsTrue result ↔ (label_in labels.now v ≡ Some label) }
{
    match labels.get(v) {
        Some(Some(found)) => *found == label,
        _ => false,
    }
}

// Offers a price to a vertex: it becomes its label if it is lower than the one that it has.
fn offer(
    labels: &mut [Option<u128>],
    opened: &mut Opened,
    v: usize,
    price: u128,
) -> Result<(), AllocError>
    requires { v < length labels.old }
    ensures { OnOk result (IsOffered v price labels.old labels.new opened.old opened.new) }
{
    let lower = match labels[v] {
        None => true,
        Some(label) => price < label,
    };
    if lower {
        labels[v] = Some(price);
        opened.put(price, v)?;
    }
    Ok(())
}
