//! Of each vertex the last transaction there, and the programs since then, in the order so far.
ghost use Rattle.std.specs.Prelude.{◌≡◌, ◌||◌, ◌&&◌, ◌==◌, ◌∷◌, ◌++◌, ℕ, not, false, Some, None, [], IsTrue, OnOk, MatchOption, if◌then◌else◌};
ghost use Rattle.std.specs.Map.{lookup};
ghost use Rattle.std.specs.Option.{unwrap_or};
ghost use Rattle.weave_data.specs.Names.{same_name};
ghost use Rattle.weave_data.specs.declared.name.Name.{Name};
ghost use Rattle.graph_ops.specs.Mentions.{is_among};
ghost use Rattle.report_rules.specs.Lookups.{is_in};
ghost use Rattle.order_witness.specs.Begun.{request_precedes};
ghost use Rattle.run_judge.specs.Vertices.{IsComparedAt, last_transaction, later_programs};
ghost use Rattle.run_judge.specs.Ways.{TellsWays};

use crate::ways::{Ways, precedes};
use report_rules::Report;
use std::alloc::{AllocError, Global};
use std::collections::HashMap;
use weave_data::{Items, Name};

/// The last transaction at each vertex, and the programs there that are listed after it.
#[derive(Drop)]
pub struct Vertices {
    pub lasts: HashMap<Name, u32>,
    pub since: HashMap<Name, Items<u32>>,
}

/// No vertices. It takes no memory.
pub fn no_vertices(alloc: Global) -> Vertices
    ensures lasts { (v : Name) → last_transaction result v ≡ None }
    ensures since { (v : Name) → later_programs result v ≡ [] }
{
    Vertices {
        lasts: HashMap::new(alloc),
        since: HashMap::new(alloc),
    }
}

/// An earlier request, and a vertex at which it meets a later one that it doesn't precede.
#[derive(Clone, Copy)]
pub struct Unordered {
    pub vertex: Name,
    pub earlier: u32,
}

/// The first of these vertices at which a request that is kept there doesn't precede this one, and the first such
/// request.
pub fn first_unordered(
    report: &Report,
    ways: &Ways,
    vertices: &Vertices,
    names: &[Name],
    request: u32,
    changes: bool,
) -> Option<Unordered>
    requires { TellsWays report.now ways.now }
    ensures { MatchOption result
        ((v : Name) (e : ℕ) → IsTrue (is_among names.now v) → IsComparedAt vertices.now v changes e
        → IsTrue (request_precedes report.now e request))
        (λ found. IsTrue (is_among names.now found.vertex)
        × IsComparedAt vertices.now found.vertex changes found.earlier
        × (request_precedes report.now found.earlier request ≡ false)) }
{
    for name in names {
        if let Some(earlier) = unordered_at(report, ways, vertices, *name, request, changes) {
            return Some(Unordered {
                vertex: *name,
                earlier,
            });
        }
    }
    None
}

fn unordered_at(
    report: &Report,
    ways: &Ways,
    vertices: &Vertices,
    v: Name,
    request: u32,
    changes: bool,
) -> Option<u32>
    requires { TellsWays report.now ways.now }
    ensures { MatchOption result
        ((e : ℕ) → IsComparedAt vertices.now v changes e → IsTrue (request_precedes report.now e request))
        (λ e. IsComparedAt vertices.now v changes e × (request_precedes report.now e request ≡ false)) }
{
    if let Some(last) = last_of(vertices, v) {
        if !precedes(report, ways, last, request) {
            return Some(last);
        }
    }
    if !changes {
        return None;
    }
    first_after(report, ways, programs_since(vertices, v), request)
}

fn last_of(vertices: &Vertices, v: Name) -> Option<u32>
    ensures { result ≡ last_transaction vertices.now v }
{
    match vertices.lasts.get(&v) {
        Some(last) => Some(*last),
        None => None,
    }
}

fn programs_since(vertices: &Vertices, v: Name) -> &[u32]
    ensures { result.now ≡ later_programs vertices.now v }
{
    match vertices.since.get(&v) {
        Some(programs) => programs.as_slice(),
        None => &[],
    }
}

// The first of these requests that doesn't precede this one.
fn first_after(report: &Report, ways: &Ways, requests: &[u32], request: u32) -> Option<u32>
    requires { TellsWays report.now ways.now }
    ensures { MatchOption result
        ((e : ℕ) → IsTrue (is_in e requests.now) → IsTrue (request_precedes report.now e request))
        (λ e. IsTrue (is_in e requests.now) × (request_precedes report.now e request ≡ false)) }
{
    for place in 0..requests.len() {
        if !precedes(report, ways, requests[place], request) {
            return Some(requests[place]);
        }
    }
    None
}

/// Notes the request at these vertices.
pub fn note(
    alloc: Global,
    vertices: &mut Vertices,
    names: &[Name],
    request: u32,
    changes: bool,
) -> Result<(), AllocError>
    ensures lasts { OnOk result ((v : Name) → last_transaction vertices.new v
        ≡ (if changes && is_among names.now v then Some request else last_transaction vertices.old v)) }
    ensures since { OnOk result ((v : Name) (e : ℕ) → is_in e (later_programs vertices.new v)
        ≡ (if is_among names.now v then (not changes && (e == request || is_in e (later_programs vertices.old v)))
        else is_in e (later_programs vertices.old v))) }
{
    for name in names {
        note_at(alloc, vertices, *name, request, changes)?;
    }
    Ok(())
}

fn note_at(
    alloc: Global,
    vertices: &mut Vertices,
    name: Name,
    request: u32,
    changes: bool,
) -> Result<(), AllocError>
    ensures lasts { OnOk result ((v : Name) → last_transaction vertices.new v
        ≡ (if changes && same_name name v then Some request else last_transaction vertices.old v)) }
    ensures since { OnOk result ((v : Name) (e : ℕ) → is_in e (later_programs vertices.new v)
        ≡ (if same_name name v then (not changes && (e == request || is_in e (later_programs vertices.old v)))
        else is_in e (later_programs vertices.old v))) }
{
    if changes {
        note_transaction(vertices, name, request)
    } else {
        note_program(alloc, vertices, name, request)
    }
}

fn note_transaction(vertices: &mut Vertices, name: Name, request: u32) -> Result<(), AllocError>
    ensures lasts { OnOk result ((v : Name) → last_transaction vertices.new v
        ≡ (if same_name name v then Some request else last_transaction vertices.old v)) }
    ensures since { OnOk result ((v : Name) → later_programs vertices.new v
        ≡ (if same_name name v then [] else later_programs vertices.old v)) }
{
    vertices.lasts.insert(name, request)?;
    let _ = vertices.since.remove(&name);
    Ok(())
}

fn note_program(
    alloc: Global,
    vertices: &mut Vertices,
    name: Name,
    request: u32,
) -> Result<(), AllocError>
    ensures lasts { OnOk result ((v : Name) → last_transaction vertices.new v ≡ last_transaction vertices.old v) }
    ensures since { OnOk result ((v : Name) → later_programs vertices.new v
        ≡ (if same_name name v then later_programs vertices.old name ++ request ∷ []
        else later_programs vertices.old v)) }
{
    let mut programs = take_programs(alloc, &mut vertices.since, name);
    programs.push(request)?;
    vertices.since.insert(name, programs)?;
    Ok(())
}

// Takes the programs at a vertex out of the table.
fn take_programs(alloc: Global, since: &mut HashMap<Name, Items<u32>>, name: Name) -> Items<u32>
    ensures programs { result ≡ unwrap_or (lookup (same_name name) since.old.entries) [] }
    ensures gone { (v : Name) → lookup (same_name v) since.new.entries
        ≡ (if same_name name v then None else lookup (same_name v) since.old.entries) }
{
    match since.remove(&name) {
        Some(programs) => programs,
        None => Items::new(alloc),
    }
}
