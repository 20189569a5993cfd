//! Notes of what was seen, and how they are compared.
ghost use Rattle.chronicle.specs.Seats.{AreBare};

use crate::chronicle::Chronicle;
use crate::machine::Machine;
use crate::pass::Pass;
use crate::rule::STILL;
use crate::steps::{Compares, Copies, Gathers};
use crate::view::View;
use atomic_table::Badge;
use std::mem;

/// What a pass had seen of a log when the note was made or last compared. It has no author, and a machine may keep it.
#[derive(Drop)]
pub struct Note<E> {
    // So that a note has a size: values without bytes can't be reached by their index in a slice.
    pub(crate) byte: u8,
    pub(crate) badge: Badge<View<E>>,
    ghost bare: { AreBare badge.views },
}

impl<M: Machine> Chronicle<M> {
    ghost use Rattle.std.specs.Prelude.{◌≡◌, ◌⊎◌};
    ghost use mathlib.Core.List.{IsPrefix};
    ghost use Rattle.chronicle.specs.Logs.{longer_of_logs};
    ghost use Rattle.chronicle.specs.Locks.{lock_of};
    ghost use Rattle.chronicle.specs.Passes.{IsReady, IsNote, number_of, seen_by_pass, own_entries, seen_by_note};

    /// A note of what the pass has seen.
    pub fn note(&self, pass: &mut Pass<M::Entry>) -> Note<M::Entry>
        requires { IsReady (lock_of self.now) pass.old }
        ensures ready { IsReady (lock_of self.now) pass.new }
        ensures number { number_of pass.new ≡ number_of pass.old }
        ensures seen { seen_by_pass pass.new ≡ seen_by_pass pass.old }
        ensures note { IsNote (lock_of self.now) result }
        ensures noted { seen_by_note result ≡ seen_by_pass pass.old }
    {
        let mut seat = mem::replace(&mut pass.badge, Badge::blank()).into_seat::<Option<M>>();
        let copy = self.table.shared.split_seat::<Copies>(&mut seat);
        pass.badge = seat.into_badge();
        Note {
            byte: 0,
            badge: copy.into_badge(),
        }
    }

    /// Compares a pass and a note of this lock. Both have then seen the longer of the two lists, which is one of them.
    pub fn meet(&self, pass: &mut Pass<M::Entry>, note: &mut Note<M::Entry>)
        requires pass { IsReady (lock_of self.now) pass.old }
        requires note { IsNote (lock_of self.now) note.old }
        ensures ready { IsReady (lock_of self.now) pass.new }
        ensures number { number_of pass.new ≡ number_of pass.old }
        ensures own { own_entries pass.new ≡ own_entries pass.old }
        ensures note { IsNote (lock_of self.now) note.new }
        ensures longer { seen_by_pass pass.new ≡ longer_of_logs (seen_by_pass pass.old) (seen_by_note note.old) }
        ensures either { (seen_by_pass pass.new ≡ seen_by_pass pass.old)
            ⊎ (seen_by_pass pass.new ≡ seen_by_note note.old) }
        ensures pass_before { IsPrefix (seen_by_pass pass.old) (seen_by_pass pass.new) }
        ensures note_before { IsPrefix (seen_by_note note.old) (seen_by_pass pass.new) }
        ensures one { seen_by_note note.new ≡ seen_by_pass pass.new }
    {
        let shared = &self.table.shared;
        let mut seat = mem::replace(&mut pass.badge, Badge::blank()).into_seat::<Option<M>>();
        let other = mem::replace(&mut note.badge, Badge::blank()).into_seat();
        shared.join_seat::<Gathers>(&mut seat, other);
        shared.load::<Compares>(&mut seat, STILL);
        note.badge = shared.split_seat::<Copies>(&mut seat).into_badge();
        pass.badge = seat.into_badge();
    }
}
