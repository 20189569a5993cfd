//! What the judge is asked.
ghost use Rattle.std.specs.Prelude.{◌≡◌, ◌++◌, ◌∷◌, [], List, IfOk, OnOk};
ghost use Rattle.weave_data.specs.declared.name.Name.{Name};
ghost use Rattle.backing_store.specs.declared.lasts.KeptCommit.{KeptCommit};
ghost use Rattle.backing_store.specs.Keeping.{held_of, unordered_of, IsAsked};

use crate::lasts::Lasts;
use std::alloc::{AllocError, Global};
use vector_stamp::Stamp;
use weave_data::{Items, Name};

/// The last commits that are unordered with a transaction, in the order in which it names their vertices.
#[derive(Drop)]
pub(crate) struct Asked {
    pub vertices: Items<Name>,
    pub stamps: Items<Stamp>,
    /// Their requests.
    pub newer: Items<u32>,
}

/// The last commits at these vertices that are unordered with the stamp.
pub(crate) fn asked_at(
    alloc: Global,
    lasts: &Lasts,
    names: &[Name],
    stamp: &Stamp,
) -> Result<Asked, AllocError>
    ensures { IfOk result (λ asked. IsAsked asked (unordered_of stamp.now (held_of lasts.now.entries names.now))) }
{
    let mut asked = Asked {
        vertices: Items::new(alloc),
        stamps: Items::new(alloc),
        newer: Items::new(alloc),
    };
    for name in names {
        ask_at(&mut asked, lasts, *name, stamp)?;
    }
    Ok(asked)
}

// Adds the last commit at a vertex, if there is one that is unordered with the stamp.
fn ask_at(asked: &mut Asked, lasts: &Lasts, name: Name, stamp: &Stamp) -> Result<(), AllocError>
    ensures { OnOk result ((held : List (Name × KeptCommit)) → IsAsked asked.old held
        → IsAsked asked.new (held ++ unordered_of stamp.now (held_of lasts.now.entries (name ∷ [])))) }
{
    let Some(last) = lasts.get(&name) else {
        return Ok(());
    };
    if last.stamp.is_unordered(stamp) {
        asked.vertices.push(name)?;
        asked.stamps.push(last.stamp)?;
        asked.newer.push(last.request)?;
    }
    Ok(())
}
