//! Hands.
use chronicle::Pass;
use weave_entries::{GateDeed, OracleDeed, ShardDeed, StoreDeed};

/// Who works on the objects of a run: a pass of each lock, all with one number. Contracts see what its passes have seen
/// (`seen_by`), and which entries there are its own (`made_by`).
#[derive(Drop)]
pub struct Hand {
    pub(crate) gates: Vec<Pass<GateDeed>>,
    pub(crate) store: Pass<StoreDeed>,
    pub(crate) oracle: Pass<OracleDeed>,
    pub(crate) shards: Vec<Pass<ShardDeed>>,
}

impl Hand {
    ghost use Rattle.std.specs.Prelude.{◌≡◌};
    ghost use Rattle.weaver_locks.specs.Hands.{hand_number};

    /// The number that its entries have as their author's.
    pub fn number(&self) -> u32
        ensures { result ≡ hand_number self.now }
    {
        self.store.number()
    }
}
