//! The vertices of the visits that asked the oracle, found by the logs of shards and store.
ghost use Rattle.std.specs.Prelude.{◌≡◌, ◌||◌, ℕ, [], map, IfOk, OnOk};
ghost use Rattle.weave_data.specs.declared.name.Name.{Name};
ghost use Rattle.weave_entries.specs.ShardReplay.{visit_by, visits_of};
ghost use Rattle.weaver_core.specs.Marks.{AddsVisits, adds_visit, all_visits, counts_by, counts_of_verdict, first_seen, has_mark};
ghost use Rattle.weaver_core.specs.ShardTable.{log_of_shard};

use backing_store::Store;
use shard_node::Shard;
use std::alloc::{AllocError, Global};
use std::collections::HashMap;
use weave_data::Name;
use weave_entries::{Counted, ShardDeed, ShardEntry, Verdict};

/// The visits that asked the oracle: each with its request, its vertex, and how many updates of the vertex come before
/// the last one that it saw.
pub(crate) type VisitTable = HashMap<(u32, Name, u64), ()>;

/// The visits of shards that asked the oracle. It looks once at each entry of their logs. The one error is out of
/// memory.
pub(crate) fn visits_in(alloc: Global, shards: &[Shard]) -> Result<VisitTable, AllocError>
    ensures { IfOk result (λ visits. AddsVisits [] visits.entries (all_visits (map log_of_shard shards.now))) }
{
    let mut visits = HashMap::new(alloc);
    for shard in shards {
        add_visits(&mut visits, shard.log())?;
    }
    Ok(visits)
}

// Adds the visits of a log.
fn add_visits(visits: &mut VisitTable, log: &[ShardEntry]) -> Result<(), AllocError>
    ensures { OnOk result (AddsVisits visits.old.entries visits.new.entries (visits_of log.now)) }
{
    for entry in log {
        add_visit(visits, entry)?;
    }
    Ok(())
}

// Adds the visit of an entry, if it is one.
fn add_visit(visits: &mut VisitTable, entry: &ShardEntry) -> Result<(), AllocError>
    ensures { OnOk result (AddsVisits visits.old.entries visits.new.entries
        (visit_by entry.now.author entry.now.deed)) }
{
    match &entry.deed {
        ShardDeed::Visited {
            request,
            vertex,
            updates,
            settled,
            ..
        } => note_visit(visits, *request, *vertex, *updates, *settled),
        _ => Ok(()),
    }
}

// Adds a visit that saw that many updates, if it asked the oracle and saw one.
fn note_visit(
    visits: &mut VisitTable,
    request: u32,
    vertex: Name,
    updates: u64,
    settled: bool,
) -> Result<(), AllocError>
    ensures { OnOk result ((key : ℕ × Name × ℕ) → has_mark visits.new.entries key
        ≡ (adds_visit request vertex updates settled key || has_mark visits.old.entries key)) }
{
    if settled && 0 < updates {
        visits.insert((request, vertex, updates - 1), ())?;
    }
    Ok(())
}

/// The first of these vertices, each with a number of commits that name it before, of which the request visited it and
/// saw last the commit after these, with the oracle asked.
pub(crate) fn first_seen(visits: &VisitTable, request: u32, counts: &[Counted]) -> Option<Name>
    ensures { result ≡ first_seen (has_mark visits.now.entries) request counts.now }
{
    for counted in counts {
        if visits.contains_key(&(request, counted.vertex, counted.before)) {
            return Some(counted.vertex);
        }
    }
    None
}

/// The vertices that the commit of a request names, each with the number of commits before that name it; none if it did
/// not commit.
pub(crate) fn counts_of(store: &Store, request: u32) -> &[Counted]
    ensures { result.now ≡ counts_by store.now request }
{
    match store.verdict_of(request) {
        None => &[],
        Some(verdict) => counts_in(verdict),
    }
}

fn counts_in(verdict: &Verdict) -> &[Counted]
    ensures { result.now ≡ counts_of_verdict verdict.now }
{
    match verdict {
        Verdict::Committed { counts, .. } => counts.as_slice(),
        Verdict::Conflict { .. } => &[],
        Verdict::Refused { .. } => &[],
    }
}
