//! When an item was added.
ghost use Rattle.std.specs.Prelude.{◌≡◌};
ghost use Rattle.version_parts.specs.Times.{beginning, is_later, counts};

/// The number of the update that added an item, from 1, and the place of the operation in that update, from 0.
#[derive(Clone, Copy)]
pub struct Time {
    pub update: u64,
    pub place: u64,
}

impl Time {
    /// Before every update.
    pub(crate) fn beginning() -> Time
        ensures { result ≡ beginning }
    {
        Time {
            update: 0,
            place: 0,
        }
    }

    /// Whether it is after another time.
    pub(crate) fn is_later(self, other: Time) -> bool
        ensures { result ≡ is_later self other }
    {
        other.update < self.update || (other.update == self.update && other.place < self.place)
    }

    /// Whether an item of this time counts for a thing that is there since `since`.
    pub(crate) fn counts(self, since: Option<Time>) -> bool
        ensures { result ≡ counts since self }
    {
        match since {
            None => false,
            Some(since) => self.is_later(since),
        }
    }
}
