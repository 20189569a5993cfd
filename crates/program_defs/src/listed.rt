//! The listed vertices of a certificate by number.
ghost use Rattle.std.specs.Prelude.{ℕ, ◌≡◌, ◌<◌, ◌^◌, ◌↔◌, false, IsTrue, Some, IfOk, IfSome, IfNone, MatchBool, is_some, length};
ghost use Rattle.weave_data.specs.Pairs.{at_key};
ghost use Rattle.weave_data.specs.declared.name.Name.{Name};
ghost use Rattle.graph_ops.specs.Graphs.{plain_of};
ghost use Rattle.graph_ops.specs.Mentions.{is_among};
ghost use Rattle.program_defs.specs.Labels.{AddsEdge, AreNumbersOf, AreRows, AreRowsOf, HoldsListed, IsRowOf, IsUnlisted, listed_prices, listed_names};
ghost use Rattle.program_defs.specs.Prices.{HasEdge, price_in, priced_edges};
ghost use Rattle.program_defs.specs.Rising.{is_rising};

use crate::priced::place_among;
use crate::prices::price_of;
use crate::program::Bound;
use crate::row::Row;
use graph_ops::{Edge, Graph, Record};
use std::alloc::{AllocError, Global};
use weave_data::Name;

/// The listed vertices by number, their bounds as labels, and the passing edges between them.
#[derive(Drop)]
pub(crate) struct Listed {
    pub(crate) vertices: Vec<Name>,
    pub(crate) labels: Vec<Option<u128>>,
    pub(crate) rows: Vec<Row>,
}

/// Numbers the listed vertices. `None` if they don't rise, if one is absent, or if an edge leads to a vertex that is
/// there and isn't listed.
pub(crate) fn numbered(
    alloc: Global,
    graph: &Graph,
    key: Name,
    bounds: &[Bound],
) -> Result<Option<Listed>, AllocError>
    ensures some { IfOk result (λ found. IfSome found (λ listed. AreNumbersOf (plain_of graph.now) key bounds.now
        listed.vertices.items listed.labels.items listed.rows.items)) }
    ensures none { IfOk result (λ found. IfNone found
        (HoldsListed (plain_of graph.now) key (listed_names bounds.now) → ⊥)) }
{
    let vertices = names_of(alloc, bounds)?;
    if !are_rising(vertices.as_slice()) {
        return Ok(None);
    }
    let Some(rows) = rows_between(alloc, graph, key, vertices.as_slice())? else {
        return Ok(None);
    };
    let labels = labels_of(alloc, bounds)?;
    Ok(Some(Listed {
        vertices,
        labels,
        rows,
    }))
}

fn names_of(alloc: Global, bounds: &[Bound]) -> Result<Vec<Name>, AllocError>
    ensures { IfOk result (λ names. names.items ≡ listed_names bounds.now) }
{
    let mut names = Vec::with_capacity(alloc, bounds.len())?;
    for bound in bounds {
        names.push(bound.vertex)?;
    }
    Ok(names)
}

fn labels_of(alloc: Global, bounds: &[Bound]) -> Result<Vec<Option<u128>>, AllocError>
    ensures { IfOk result (λ labels. labels.items ≡ listed_prices bounds.now) }
{
    let mut labels = Vec::with_capacity(alloc, bounds.len())?;
    for bound in bounds {
        labels.push(Some(bound.price))?;
    }
    Ok(labels)
}

// Whether the names rise in byte order.
fn are_rising(names: &[Name]) -> bool
    ensures { result ≡ is_rising names.now }
{
    for place in 1..names.len() {
        if names[place - 1] >= names[place] {
            return false;
        }
    }
    true
}

// The passing edges between vertices. `None` if one is absent, or if an edge leads to another one that is there.
fn rows_between(
    alloc: Global,
    graph: &Graph,
    key: Name,
    vertices: &[Name],
) -> Result<Option<Vec<Row>>, AllocError>
    requires { IsTrue (is_rising vertices.now) }
    ensures some { IfOk result (λ found. IfSome found (λ rows.
        AreRowsOf (plain_of graph.now) key vertices.now rows.items × AreRows rows.items
        × (length rows.items ≡ length vertices.now))) }
    ensures none { IfOk result (λ found. IfNone found (HoldsListed (plain_of graph.now) key vertices.now → ⊥)) }
{
    let mut rows = Vec::with_capacity(alloc, vertices.len())?;
    for v in vertices {
        let Some(found) = graph.find(*v) else {
            return Ok(None);
        };
        let Some(row) = row_of(alloc, graph, key, vertices, found)? else {
            return Ok(None);
        };
        rows.push(row)?;
    }
    Ok(Some(rows))
}

// The passing edges of a vertex to these. `None` if one leads to another vertex that is there.
fn row_of(
    alloc: Global,
    graph: &Graph,
    key: Name,
    vertices: &[Name],
    found: &Record,
) -> Result<Option<Row>, AllocError>
    requires { IsTrue (is_rising vertices.now) }
    ensures some { IfOk result (λ row. IfSome row
        (IsRowOf (plain_of graph.now) vertices.now (priced_edges key (Some found.now)))) }
    ensures none { IfOk result (λ row. IfNone row ((price : ℕ) × (w : Name)
        × HasEdge (priced_edges key (Some found.now)) w price × IsTrue (is_some (plain_of graph.now w))
        × (is_among vertices.now w ≡ false))) }
{
    let mut row = Row::new(alloc);
    for (_name, edge) in found.edges.as_slice() {
        if !add_edge(&mut row, graph, key, vertices, edge)? {
            return Ok(None);
        }
    }
    Ok(Some(row))
}

// Adds an edge if it passes and its target is listed. Reports whether it may: it may not if its target is there and
// isn't listed.
fn add_edge(
    row: &mut Row,
    graph: &Graph,
    key: Name,
    vertices: &[Name],
    edge: &Edge,
) -> Result<bool, AllocError>
    requires { IsTrue (is_rising vertices.now) }
    ensures { IfOk result (λ held. MatchBool held (AddsEdge (plain_of graph.now) vertices.now edge.now.target
        (price_in (at_key key edge.now.tags)) row.old row.new)
        (IsUnlisted (plain_of graph.now) vertices.now edge.now.target (price_in (at_key key edge.now.tags)))) }
{
    let Some(price) = price_of(edge, key) else {
        return Ok(true);
    };
    let Some(place) = place_among(vertices, edge.target) else {
        return Ok(graph.find(edge.target).is_none());
    };
    row.push(place, price)?;
    Ok(true)
}
