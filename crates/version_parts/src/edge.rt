//! The items of one edge.
ghost use Rattle.std.specs.Prelude.{◌≡◌, ◌≤◌, Some, None, [], IfOk, OnOk, OnErr};
ghost use Rattle.weave_data.specs.Pairs.{IsRising};
ghost use Rattle.version_parts.specs.Cuts.{cut_edge, has_some};
ghost use Rattle.version_parts.specs.Placed.{AllInEdge};
ghost use Rattle.version_parts.specs.States.{edge_at, with_edge_item};

use crate::cut::Cut;
use crate::maps::{add_item, cut_tracks, values_at};
use crate::time::Time;
use crate::track::{Item, Track};
use graph_ops::Edge;
use std::alloc::{AllocError, Global};
use weave_data::{Name, NameMap};

/// The items of one edge: its targets, and the values of its tags.
#[derive(Drop)]
pub struct EdgeItems {
    pub targets: Track<Name>,
    pub tags: NameMap<Track<Name>>,
}

impl EdgeItems {
    /// No items. It takes no memory.
    pub(crate) fn new(alloc: Global) -> EdgeItems
        ensures { result ≡ record { targets = []; tags = [] } }
    {
        EdgeItems {
            targets: Track::new(alloc),
            tags: NameMap::new(alloc),
        }
    }

    /// Whether it has items.
    pub(crate) fn has_some(&self) -> bool
        ensures { result ≡ has_some self.now }
    {
        self.targets.has_items() || self.tags.len() > 0
    }

    /// The keys of its tags rise.
    pub(crate) fn keys_rise(&self)
        ensures { IsRising self.now.tags }
    {
        let _ = self.tags.as_slice();
    }

    /// Adds an item of its target, or of a tag. The one error is out of memory, and then the items are as before.
    pub(crate) fn add(
        &mut self,
        alloc: Global,
        tag: Option<Name>,
        item: Item<Name>,
    ) -> Result<(), AllocError>
        requires { AllInEdge (λ time. time.update ≤ item.time.update) self.old }
        ensures ok { OnOk result (self.new ≡ with_edge_item tag item self.old) }
        ensures err { OnErr result (self.new ≡ self.old) }
    {
        match tag {
            None => self.targets.add(item),
            Some(key) => add_item(&mut self.tags, alloc, key, item),
        }
    }

    /// Drops items. It takes no memory.
    pub(crate) fn cut(&mut self, cut: Cut)
        ensures { self.new ≡ cut_edge cut self.old }
    {
        let alloc = self.targets.alloc();
        let inner = self.targets.inner_cut(cut);
        self.targets.cut(cut);
        cut_tracks(&mut self.tags, alloc, inner);
    }

    /// The edge after an update, if it is there. Its vertex is there since `since`.
    pub(crate) fn edge_at(
        &self,
        alloc: Global,
        update: u64,
        since: Option<Time>,
    ) -> Result<Option<Edge>, AllocError>
        ensures { IfOk result (λ edge. edge ≡ edge_at update since self.now) }
    {
        let Some((linked, target)) = self.targets.live_at(update, since) else {
            return Ok(None);
        };
        let tags = values_at(alloc, &self.tags, update, Some(linked))?;
        Ok(Some(Edge { target, tags }))
    }
}
