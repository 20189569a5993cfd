//! The last commit at each vertex.
ghost use Rattle.std.specs.Prelude.{◌≡◌, ◌≤◌, ◌<◌, ◌^◌, All, length, map, IfOk};
ghost use Rattle.indexmap.specs.IndexMap.{spare};
ghost use Rattle.weave_data.specs.declared.name.Name.{Name};
ghost use Rattle.weave_entries.specs.declared.verdict.Counted.{Counted};
ghost use Rattle.backing_store.specs.Keeping.{held_at, held_after, newer_if, first_newer, count_held};

use indexmap::IndexMap;
use std::alloc::{AllocError, Global};
use vector_stamp::Stamp;
use weave_data::{Items, Name};
use weave_entries::Counted;

/// The last commit that names a vertex.
#[derive(Clone, Copy)]
pub(crate) struct KeptCommit {
    pub request: u32,
    pub stamp: Stamp,
    /// How many commits name the vertex.
    pub commits: u64,
}

/// The last commit at each vertex that a commit names, in order of first mention.
pub(crate) type Lasts = IndexMap<Name, KeptCommit>;

/// The first of the vertices at which the stamp is before that of the last commit, with that one's request.
pub(crate) fn first_newer(lasts: &Lasts, names: &[Name], stamp: &Stamp) -> Option<(Name, u32)>
    ensures { result ≡ first_newer lasts.now.entries stamp.now names.now }
{
    for name in names {
        if let Some(newer) = newer_at(lasts, *name, stamp) {
            return Some(newer);
        }
    }
    None
}

fn newer_at(lasts: &Lasts, name: Name, stamp: &Stamp) -> Option<(Name, u32)>
    ensures { result ≡ newer_if stamp.now name (held_at lasts.now.entries name) }
{
    let Some(last) = lasts.get(&name) else {
        return None;
    };
    if stamp.is_before(&last.stamp) {
        return Some((name, last.request));
    }
    None
}

/// Each of the vertices with the number of commits that name it.
pub(crate) fn counts_at(
    alloc: Global,
    lasts: &Lasts,
    names: &[Name],
) -> Result<Items<Counted>, AllocError>
    ensures { IfOk result (λ counts. counts
        ≡ map (λ (v : Name). record { vertex = v; before = count_held lasts.now.entries v }) names.now) }
{
    let mut counts = Items::new(alloc);
    for name in names {
        counts.push(Counted {
            vertex: *name,
            before: count_at(lasts, *name),
        })?;
    }
    Ok(counts)
}

fn count_at(lasts: &Lasts, name: Name) -> u64
    ensures { result ≡ count_held lasts.now.entries name }
{
    let Some(last) = lasts.get(&name) else {
        return 0;
    };
    last.commits
}

/// The commit is the last one at each vertex that it names. There is room for them. It takes no memory.
pub(crate) fn put_lasts(lasts: &mut Lasts, counts: &[Counted], request: u32, stamp: Stamp)
    requires room { length counts.now ≤ spare lasts.old }
    requires few { All (λ (counted : Counted). counted.before < 2 ^ 63) counts.now }
    ensures { (v : Name) → held_at lasts.new.entries v
        ≡ held_after request stamp counts.now v (held_at lasts.old.entries v) }
{
    for counted in counts {
        let last = KeptCommit {
            request,
            stamp,
            commits: counted.before + 1,
        };
        let _ = lasts.insert(counted.vertex, last);
    }
}
