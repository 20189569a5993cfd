//! The answer to `price`, by going over all edges again and again until no price falls.

use graph_ops::{Edge, Graph};
use program_defs::{Answer, Bound, MOST_PRICE, Program};
use std::alloc::{AllocError, Global};
use weave_data::{Items, Name, NameMap};
use weave_text::{Numeral, number_up_to};

// The most rounds: cases have fewer vertices.
const MOST_ROUNDS: u32 = 1_000;

/// Whether this is what a `price` answers on a graph.
pub fn is_priced(
    alloc: Global,
    graph: &Graph,
    program: &Program,
    said: &Answer,
) -> Result<bool, AllocError> {
    let Program::Price { from, to, key } = *program else {
        return Ok(false);
    };
    let Answer::Priced {
        walk,
        total,
        bounds,
    } = said
    else {
        return Ok(false);
    };
    let prices = prices_from(alloc, graph, from, key)?;
    if !are_bounds(bounds.as_slice(), prices.as_slice()) {
        return Ok(false);
    }
    let led = walk_back(alloc, graph, &prices, from, to, key)?;
    let price = price_at(&prices, to);
    Ok(price.unwrap_or(0) == *total && is_walk(price.is_some(), led.as_slice(), walk))
}

fn price_at(prices: &NameMap<u128>, v: Name) -> Option<u128> {
    prices.get(v).copied()
}

// The price of an edge: its tag's value, if that is a number from 1 to 1,000,000.
fn price_on(edge: &Edge, key: Name) -> Option<u128> {
    let value = edge.tags.get(key)?;
    match number_up_to(MOST_PRICE, value.bytes()) {
        Numeral::Number(price) if price > 0 => Some(price as u128),
        _ => None,
    }
}

// The vertices to which walks lead, with the least prices of walks.
fn prices_from(
    alloc: Global,
    graph: &Graph,
    from: Name,
    key: Name,
) -> Result<NameMap<u128>, AllocError> {
    let mut prices = NameMap::new(alloc);
    if graph.find(from).is_some() {
        prices.put(from, 0)?;
    }
    for _ in 0..MOST_ROUNDS {
        if !lower_all(alloc, graph, &mut prices, key)? {
            break;
        }
    }
    Ok(prices)
}

// Goes over the edges of each vertex with a price, and reports whether a price fell.
fn lower_all(
    alloc: Global,
    graph: &Graph,
    prices: &mut NameMap<u128>,
    key: Name,
) -> Result<bool, AllocError> {
    let mut before = Vec::new(alloc);
    for (v, price) in prices.as_slice() {
        before.push((*v, *price))?;
    }
    let mut fell = false;
    for (v, price) in before.as_slice() {
        if lower_from(graph, prices, *v, *price, key)? {
            fell = true;
        }
    }
    Ok(fell)
}

fn lower_from(
    graph: &Graph,
    prices: &mut NameMap<u128>,
    v: Name,
    start: u128,
    key: Name,
) -> Result<bool, AllocError> {
    let Some(state) = graph.find(v) else {
        return Ok(false);
    };
    let mut fell = false;
    for (_, edge) in state.edges.as_slice() {
        if let Some(price) = price_on(edge, key) {
            if lower(graph, prices, edge.target, start.saturating_add(price))? {
                fell = true;
            }
        }
    }
    Ok(fell)
}

// Lowers the price of a vertex that is there to this one, and reports whether it fell.
fn lower(
    graph: &Graph,
    prices: &mut NameMap<u128>,
    v: Name,
    price: u128,
) -> Result<bool, AllocError> {
    let falls = match price_at(prices, v) {
        Some(so_far) => price < so_far,
        None => graph.find(v).is_some(),
    };
    if falls {
        prices.put(v, price)?;
    }
    Ok(falls)
}

// The walk to a vertex, its end first: at each turn goes back to the least name from which an edge has the price that
// is between.
fn walk_back(
    alloc: Global,
    graph: &Graph,
    prices: &NameMap<u128>,
    from: Name,
    to: Name,
    key: Name,
) -> Result<Vec<Name>, AllocError> {
    let mut walk = Vec::new(alloc);
    let mut at = to;
    for _ in 0..MOST_ROUNDS {
        walk.push(at)?;
        if at == from {
            break;
        }
        match before(graph, prices, at, key) {
            Some(v) => at = v,
            None => break,
        }
    }
    Ok(walk)
}

fn before(graph: &Graph, prices: &NameMap<u128>, to: Name, key: Name) -> Option<Name> {
    let wanted = price_at(prices, to)?;
    for (v, start) in prices.as_slice() {
        if leads(graph, *v, to, key, wanted.saturating_sub(*start)) {
            return Some(*v);
        }
    }
    None
}

// Whether the vertex has an edge of this price to the other.
fn leads(graph: &Graph, v: Name, to: Name, key: Name, price: u128) -> bool {
    match graph.find(v) {
        Some(state) => state.edges.as_slice().iter().any(|(_, edge)| edge.target == to
            && price_on(edge, key) == Some(price)),
        None => false,
    }
}

fn are_bounds(bounds: &[Bound], prices: &[(Name, u128)]) -> bool {
    bounds.len() == prices.len()
        && bounds.iter().zip(prices).all(|(bound, found)| bound.vertex == found.0
            && bound.price == found.1)
}

// Whether the walk that is said is this one, whose end is first; none if there is none.
fn is_walk(there: bool, led: &[Name], said: &Option<Items<Name>>) -> bool {
    match said {
        Some(vertices) => there && are_turned(led, vertices.as_slice()),
        None => !there,
    }
}

fn are_turned(led: &[Name], vertices: &[Name]) -> bool {
    led.len() == vertices.len() && led.iter().rev().zip(vertices).all(|(v, w)| *v == *w)
}
