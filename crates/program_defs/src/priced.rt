//! The priced answer from the labels of numbered vertices.
ghost use Rattle.std.specs.Prelude.{ℕ, ◌≡◌, ◌<◌, false, IsTrue, List, [], ◌∷◌, Some, None, IfOk, IfSome, IfNone, length, reverse, slice_get, slice_index_or};
ghost use Rattle.weave_data.specs.declared.name.Name.{Name};
ghost use Rattle.graph_ops.specs.Mentions.{is_among};
ghost use Rattle.graph_ops.specs.PlainGraph.{PlainGraph};
ghost use Rattle.program_defs.specs.declared.program.Program.TheVariants.{Price};
ghost use Rattle.program_defs.specs.Labels.{label_in, row_in, bounds_of, AreRows, AreRowsOf, IsCertificate};
ghost use Rattle.program_defs.specs.Parents.{AreParents, DoParentsFall, IsSeenBefore, LeadsBack, names_at};
ghost use Rattle.program_defs.specs.PlainAnswer.{IsPlainAnswer};
ghost use Rattle.program_defs.specs.PricedAnswer.{IsPricedAnswer};
ghost use Rattle.program_defs.specs.Rising.{is_rising};

use crate::parents::{label_of, least_parents, parent_of};
use crate::program::{Answer, Bound};
use crate::row::Row;
use std::alloc::{AllocError, Global};
use weave_data::{Items, Name};

/// The number of a vertex among these in byte order, which is its place. It costs a binary search.
pub fn place_among(vertices: &[Name], v: Name) -> Option<usize>
    requires { IsTrue (is_rising vertices.now) }
    ensures some { IfSome result (λ place. slice_get vertices.now place ≡ Some v) }
    ensures none { IfNone result (is_among vertices.now v ≡ false) }
{
    match vertices.binary_search(&v) {
        Ok(place) => Some(place),
        Err(_) => None,
    }
}

/// The priced answer, if the labels of the numbered vertices are a certificate: the start has 0, each edge leads to a
/// label of at most the sum of its label and price, and each label but the start's is such a sum. The one error is out
/// of memory.
pub fn priced_answer(
    alloc: Global,
    vertices: &[Name],
    rows: &[Row],
    labels: &[Option<u128>],
    to: Name,
) -> Result<Answer, AllocError>
    requires rising { IsTrue (is_rising vertices.now) }
    requires rows { AreRows rows.now }
    requires vertices { length vertices.now ≡ length rows.now }
    requires labels { length labels.now ≡ length rows.now }
    ensures { IfOk result (λ answer. (graph : PlainGraph) (from key : Name) (start : ℕ)
        → AreRowsOf graph key vertices.now rows.now → slice_get vertices.now start ≡ Some from
        → IsCertificate (row_in rows.now) start (label_in labels.now)
        → IsPlainAnswer graph (Price from to key) answer) }
{
    let parents = least_parents(alloc, rows, labels)?;
    let (walk, total) = least_walk(alloc, vertices, labels, parents.as_slice(), to)?;
    let bounds = listed_bounds(alloc, vertices, labels)?;
    Ok(Answer::Priced {
        walk,
        total,
        bounds,
    })
}

/// The walk of least price to a vertex, and its price, by the parents of the vertices; no walk with price 0 if the
/// vertex has no label.
pub(crate) fn least_walk(
    alloc: Global,
    vertices: &[Name],
    labels: &[Option<u128>],
    parents: &[Option<usize>],
    to: Name,
) -> Result<(Option<Items<Name>>, u128), AllocError>
    requires rising { IsTrue (is_rising vertices.now) }
    requires vertices { length vertices.now ≡ length labels.now }
    requires falling { DoParentsFall labels.now parents.now }
    ensures { IfOk result (λ led. (graph : PlainGraph) (from key : Name) (start : ℕ) (rows : List (List (ℕ × ℕ)))
        → AreRowsOf graph key vertices.now rows → slice_get vertices.now start ≡ Some from
        → IsCertificate (row_in rows) start (label_in labels.now) → length labels.now ≡ length rows
        → AreParents rows labels.now (IsSeenBefore (length rows)) (length rows) parents.now
        → IsPricedAnswer graph from to key led.0 led.1 (bounds_of vertices.now labels.now)) }
{
    match labelled_place(vertices, labels, to) {
        None => Ok((None, 0)),
        Some((place, total)) => {
            let walk = walk_over(alloc, vertices, labels, parents, place)?;
            Ok((Some(walk), total))
        }
    }
}

// The number and the label of a vertex, if it has a label.
fn labelled_place(vertices: &[Name], labels: &[Option<u128>], v: Name) -> Option<(usize, u128)>
    requires { IsTrue (is_rising vertices.now) }
    ensures some { IfSome result (λ found. (slice_get vertices.now found.0 ≡ Some v)
        × (label_in labels.now found.0 ≡ Some found.1)) }
    ensures none { IfNone result ((place : ℕ) → slice_get vertices.now place ≡ Some v
        → label_in labels.now place ≡ None) }
{
    let Some(place) = place_among(vertices, v) else {
        return None;
    };
    let Some(label) = label_of(labels, place) else {
        return None;
    };
    Some((place, label))
}

// The vertices with a label, each with its label as its bound.
fn listed_bounds(
    alloc: Global,
    vertices: &[Name],
    labels: &[Option<u128>],
) -> Result<Items<Bound>, AllocError>
    requires { length vertices.now ≡ length labels.now }
    ensures { IfOk result (λ bounds. bounds ≡ bounds_of vertices.now labels.now) }
{
    let mut bounds = Items::new(alloc);
    for place in 0..vertices.len() {
        if let Some(price) = label_of(labels, place) {
            let vertex = vertices[place];
            bounds.push(Bound { vertex, price })?;
        }
    }
    Ok(bounds)
}

fn name_at(vertices: &[Name], place: usize) -> Name
    requires { place < length vertices.now }
    ensures { result ≡ slice_index_or vertices.now place [] }
{
    vertices[place]
}

// The vertices from the first one without a parent to this one, over the parents.
fn walk_over(
    alloc: Global,
    vertices: &[Name],
    labels: &[Option<u128>],
    parents: &[Option<usize>],
    place: usize,
) -> Result<Items<Name>, AllocError>
    requires vertices { length vertices.now ≡ length labels.now }
    requires place { place < length labels.now }
    requires falling { DoParentsFall labels.now parents.now }
    ensures { IfOk result (λ walk. (before : List ℕ) × LeadsBack parents.now place before
        × (walk ≡ reverse (names_at vertices.now (place ∷ before)))) }
{
    let mut walk = Vec::new(alloc);
    let mut at = place;
    walk.push(name_at(vertices, at))?;
    while let Some(before) = parent_of(parents, at) {
        walk.push(name_at(vertices, before))?;
        at = before;
    }
    walk.reverse();
    Ok(Items::from_vec(walk))
}
