//! Lists of items under names.
ghost use Rattle.std.specs.Prelude.{◌≡◌, ◌≤◌, ◌∷◌, ◌++◌, IsTrue, IfOk, OnOk, OnErr};
ghost use Rattle.std.specs.Vec.{vec_len, vec_capacity};
ghost use Rattle.weave_data.specs.Pairs.{has, IsRising};
ghost use Rattle.version_parts.specs.Counts.{has_items};
ghost use Rattle.version_parts.specs.Cuts.{cut_tracks, left_items};
ghost use Rattle.version_parts.specs.KeptValues.{kept_values};
ghost use Rattle.version_parts.specs.Placed.{AllInTracks};
ghost use Rattle.version_parts.specs.States.{value_at, track_values_at, with_item};
ghost use Rattle.version_parts.specs.Tracks.{cut_items};

use crate::cut::Cut;
use crate::time::Time;
use crate::track::{Item, Track};
use std::alloc::{AllocError, Global};
use std::mem::replace;
use weave_data::{Name, NameMap};

/// Adds an item to the list at a key. The one error is out of memory, and then the lists are as before.
pub(crate) fn add_item(
    tracks: &mut NameMap<Track<Name>>,
    alloc: Global,
    key: Name,
    item: Item<Name>,
) -> Result<(), AllocError>
    requires { AllInTracks (λ time. time.update ≤ item.time.update) tracks.old }
    ensures ok { OnOk result (tracks.new ≡ with_item key item tracks.old) }
    ensures err { OnErr result (tracks.new ≡ tracks.old) }
    ensures rising { IsRising tracks.old }
{
    // Its clause `rising` is what is to be shown.
    let _ = tracks.as_slice();
    if tracks.has(key) {
        return add_to(tracks, alloc, key, item);
    }
    let mut track = Track::new(alloc);
    track.add(item)?;
    tracks.put(key, track)
}

// Adds an item to a list that is there.
fn add_to(
    tracks: &mut NameMap<Track<Name>>,
    alloc: Global,
    key: Name,
    item: Item<Name>,
) -> Result<(), AllocError>
    requires times { AllInTracks (λ time. time.update ≤ item.time.update) tracks.old }
    requires there { IsTrue (has key tracks.old) }
    ensures ok { OnOk result (tracks.new ≡ with_item key item tracks.old) }
    ensures err { OnErr result (tracks.new ≡ tracks.old) }
{
    let mut track = tracks.swap(key, Track::new(alloc));
    let added = track.add(item);
    tracks.swap(key, track);
    added
}

/// Drops items of each list, and the lists that are empty then. It takes no memory.
pub(crate) fn cut_tracks(tracks: &mut NameMap<Track<Name>>, alloc: Global, cut: Cut)
    ensures { tracks.new ≡ cut_tracks cut tracks.old }
{
    let mut pairs = replace(tracks, NameMap::new(alloc)).into_vec();
    cut_pairs(&mut pairs, cut);
    match NameMap::from_vec(pairs) {
        Ok(left) => *tracks = left,
        Err(_) => unreachable!(),
    }
}

fn cut_pairs(pairs: &mut Vec<(Name, Track<Name>)>, cut: Cut)
    ensures pairs { pairs.new.items ≡ kept_values (left_items cut) pairs.old.items }
    ensures len { vec_len pairs.new ≤ vec_len pairs.old }
    ensures capacity { vec_capacity pairs.new ≡ vec_capacity pairs.old }
{
    pairs.retain_mut(|pair| cut_pair(pair, cut));
}

// Drops items of a list, and answers whether it has items left.
fn cut_pair(pair: &mut (Name, Track<Name>), cut: Cut) -> bool
    ensures left { pair.new ≡ (pair.old.0, cut_items cut pair.old.1) }
    ensures stays { result ≡ has_items (cut_items cut pair.old.1) }
{
    pair.1.cut(cut);
    pair.1.has_items()
}

/// The properties of a vertex or the tags of an edge after an update. It is there since `since`.
pub(crate) fn values_at(
    alloc: Global,
    tracks: &NameMap<Track<Name>>,
    update: u64,
    since: Option<Time>,
) -> Result<NameMap<Name>, AllocError>
    ensures { IfOk result (λ values. values ≡ track_values_at update since tracks.now) }
{
    let pairs = tracks.as_slice();
    let values = pairs_at(alloc, pairs, update, since)?;
    NameMap::from_vec(values)
}

fn pairs_at(
    alloc: Global,
    pairs: &[(Name, Track<Name>)],
    update: u64,
    since: Option<Time>,
) -> Result<Vec<(Name, Name)>, AllocError>
    ensures { IfOk result (λ values. values.items ≡ kept_values (value_at update since) pairs.now) }
{
    let mut values = Vec::with_capacity(alloc, pairs.len())?;
    for (key, track) in pairs {
        if let Some((_, value)) = track.live_at(update, since) {
            values.push((*key, value))?;
        }
    }
    Ok(values)
}
