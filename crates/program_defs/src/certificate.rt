//! Whether an answer is the priced answer, by its certificate.
ghost use Rattle.std.specs.Prelude.{ℕ, ◌≡◌, ◌<◌, ◌+◌, ◌↔◌, IsTrue, IsSome, List, [], Some, None, IfOk, length, slice_get};
ghost use Rattle.std.specs.List.{list_all};
ghost use Rattle.weave_data.specs.declared.name.Name.{Name};
ghost use Rattle.graph_ops.specs.Graphs.{plain_of};
ghost use Rattle.graph_ops.specs.PlainGraph.{PlainGraph};
ghost use Rattle.program_defs.specs.declared.program.Bound.{Bound};
ghost use Rattle.program_defs.specs.Certificate.{is_number_within};
ghost use Rattle.program_defs.specs.Labels.{label_in, row_in, AreNumbersOf, AreOnward, AreRows, IsCertificate};
ghost use Rattle.program_defs.specs.Parents.{AreParents, IsSeenBefore};
ghost use Rattle.program_defs.specs.PlainAnswer.{IsPlainAnswer, is_price};
ghost use Rattle.program_defs.specs.PricedAnswer.{IsPricedAnswer};
ghost use Rattle.program_defs.specs.Rising.{is_rising};

use crate::listed::{Listed, numbered};
use crate::parents::{has_label, label_of, least_parents, parent_of};
use crate::priced::{least_walk, place_among};
use crate::program::{Answer, Bound, Program};
use crate::row::Row;
use graph_ops::Graph;
use std::alloc::{AllocError, Global};
use weave_data::{Items, Name};

/// Whether this is what a `price` answers on a graph. It looks at each passing edge of the listed vertices and searches
/// nothing. The one error is out of memory.
pub fn proves(
    alloc: Global,
    graph: &Graph,
    program: &Program,
    answer: &Answer,
) -> Result<bool, AllocError>
    requires { IsTrue (is_price program.now) }
    ensures { IfOk result (λ holds. IsTrue holds ↔ IsPlainAnswer (plain_of graph.now) program.now answer.now) }
{
    let Program::Price { from, to, key } = *program else {
        return Ok(false);
    };
    let Answer::Priced {
        walk,
        total,
        bounds,
    } = answer
    else {
        return Ok(false);
    };
    let bounds = bounds.as_slice();
    match numbered(alloc, graph, key, bounds)? {
        None => Ok(false),
        Some(list) => {
            let start = place_among(list.vertices.as_slice(), from);
            match start {
                None => Ok(is_nothing(graph, from, walk, *total, bounds)),
                Some(start) => {
                    let holds = proves_by(alloc, &list, start, to, walk, *total)?;
                    Ok(holds)
                }
            }
        }
    }
}

// Whether nothing is there: the start is absent, and the answer has no walk and no bounds.
fn is_nothing(
    graph: &Graph,
    from: Name,
    walk: &Option<Items<Name>>,
    total: u128,
    bounds: &[Bound],
) -> bool
    ensures { IsTrue result
        ↔ ((plain_of graph.now from ≡ None) × (walk.now ≡ None) × (total ≡ 0) × (bounds.now ≡ [])) }
{
    graph.find(from).is_none() && walk.is_none() && total == 0 && bounds.is_empty()
}

// Whether the listed bounds are a certificate, and the walk and its price are those to which it leads.
fn proves_by(
    alloc: Global,
    list: &Listed,
    start: usize,
    to: Name,
    walk: &Option<Items<Name>>,
    total: u128,
) -> Result<bool, AllocError>
    requires rising { IsTrue (is_rising list.now.vertices.items) }
    requires rows { AreRows list.now.rows.items }
    requires vertices { length list.now.rows.items ≡ length list.now.vertices.items }
    requires labels { length list.now.rows.items ≡ length list.now.labels.items }
    requires start { start < length list.now.rows.items }
    ensures { IfOk result (λ holds. (graph : PlainGraph) (key from : Name) (bounds : List Bound)
        → AreNumbersOf graph key bounds list.now.vertices.items list.now.labels.items list.now.rows.items
        → slice_get list.now.vertices.items start ≡ Some from
        → IsTrue holds ↔ IsPricedAnswer graph from to key walk.now total bounds) }
{
    let rows = list.rows.as_slice();
    let labels = list.labels.as_slice();
    let parents = least_parents(alloc, rows, labels)?;
    if !is_certificate(rows, labels, parents.as_slice(), start) {
        return Ok(false);
    }
    let vertices = list.vertices.as_slice();
    let (led, price) = least_walk(alloc, vertices, labels, parents.as_slice(), to)?;
    Ok(price == total && is_same_walk(&led, walk))
}

// Whether the labels are a certificate.
fn is_certificate(
    rows: &[Row],
    labels: &[Option<u128>],
    parents: &[Option<usize>],
    start: usize,
) -> bool
    requires rows { AreRows rows.now }
    requires labels { length labels.now ≡ length rows.now }
    requires parents { AreParents rows.now labels.now (IsSeenBefore (length rows.now)) (length rows.now) parents.now }
    ensures { IsTrue result ↔ IsCertificate (row_in rows.now) start (label_in labels.now) }
{
    if !has_label(labels, start, 0) {
        return false;
    }
    if !are_onward(rows, labels) {
        return false;
    }
    are_met(labels, parents, start)
}

// Whether each edge of a labelled vertex leads to one whose label is at most the sum of label and price.
fn are_onward(rows: &[Row], labels: &[Option<u128>]) -> bool
    requires { length labels.now ≡ length rows.now }
    ensures { IsTrue result ↔ AreOnward (row_in rows.now) (label_in labels.now) }
{
    for u in 0..rows.len() {
        if let Some(start) = label_of(labels, u) {
            if !is_row_onward(rows[u].as_slice(), labels, start) {
                return false;
            }
        }
    }
    true
}

// Whether the edges of a vertex with this label do so.
fn is_row_onward(row: &[(usize, u32)], labels: &[Option<u128>], start: u128) -> bool
    ensures { result ≡ list_all (λ edge. is_number_within (label_in labels.now edge.0) (start + edge.1)) row.now }
{
    row.iter().all(|(target, price)| is_within(labels, *target, start, *price))
}

// Whether the label of a vertex is at most the sum of this label and price. No sum overflows.
fn is_within(labels: &[Option<u128>], v: usize, start: u128, price: u32) -> bool
    ensures { result ≡ is_number_within (label_in labels.now v) (start + price) }
{
    match label_of(labels, v) {
        Some(label) => label.saturating_sub(start) <= u128::from(price),
        None => false,
    }
}

// Whether each labelled vertex but the start has a parent.
fn are_met(labels: &[Option<u128>], parents: &[Option<usize>], start: usize) -> bool
    ensures { IsTrue result ↔ ((v d : ℕ) → label_in labels.now v ≡ Some d → (v ≡ start → ⊥)
        → IsSome (label_in parents.now v)) }
{
    for v in 0..labels.len() {
        if labels[v].is_some() && v != start && parent_of(parents, v).is_none() {
            return false;
        }
    }
    true
}

fn is_same_walk(led: &Option<Items<Name>>, walk: &Option<Items<Name>>) -> bool
    ensures { IsTrue result ↔ (led.now ≡ walk.now) }
{
    match (led, walk) {
        (None, None) => true,
        (Some(vertices), Some(others)) => are_same(vertices.as_slice(), others.as_slice()),
        _ => false,
    }
}

fn are_same(vertices: &[Name], others: &[Name]) -> bool
    ensures { IsTrue result ↔ (vertices.now ≡ others.now) }
{
    if vertices.len() != others.len() {
        return false;
    }
    for place in 0..vertices.len() {
        if vertices[place] != others[place] {
            return false;
        }
    }
    true
}
