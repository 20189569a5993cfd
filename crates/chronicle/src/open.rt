//! How a lock is made and opened, and how its machine is put in.
ghost use Rattle.std.specs.Prelude.{◌≡◌, ◌<◌, [], ◌∷◌, None, All, IfOk, map, vec_len};
ghost use Rattle.std.specs.List.{range_with_len};
ghost use Rattle.chronicle.specs.Locks.{lock_of, name_of, LockStartsWith, IsFilled, IsVacant};
ghost use Rattle.chronicle.specs.Passes.{IsReady, IsUnopened, number_of, seen_by_pass};
ghost use Rattle.chronicle.specs.Seats.{unopened_view, opened_view};

use crate::bell::Bell;
use crate::chronicle::Chronicle;
use crate::machine::Machine;
use crate::pass::Pass;
use crate::rule::{FREE, Law, SLOT, TAKEN, UNOPENED, WORD};
use crate::steps::{Deals, Leaves, Opening, Opens};
use crate::view::View;
use atomic_table::{Badge, Seat, Shared, Table};
use std::alloc::{AllocError, Global};
use std::marker::Brand;
use std::snapshot::Snapshot;

/// The empty place of a machine, for `fill`. Nobody can enter a lock whose place was dropped.
#[derive(Drop)]
pub struct Vacant<M: Machine> {
    pub(crate) seat: Seat<Option<M>, View<M::Entry>>,
}

/// What `open` needs of a lock that `reserve` made: its empty place, and room for its passes.
#[derive(Drop)]
pub struct Unopened<M: Machine> {
    pub(crate) passes: u32,
    pub(crate) made: Vec<Pass<M::Entry>>,
    pub(crate) seat: Seat<Option<M>, View<M::Entry>>,
}

// The first seat takes the slot. The caller's proof picks the opening out of `_like`.
fn open<M: Machine, N: Machine<Entry = M::Entry>, J: Opening<M::Entry>>(
    shared: &Shared<Option<M>, View<M::Entry>, u32, Law<M>>,
    seat: &mut Seat<Option<M>, View<M::Entry>>,
    _like: &N,
)
    requires table { (seat.old.table_id ≡ shared.now.table_id) × (shared.now.table_id.words ≡ 16) }
    requires first { seat.old.me ≡ (unopened_view shared.now.key, []) }
    ensures table { seat.new.table_id ≡ seat.old.table_id }
    ensures opened { seat.new.me ≡ (opened_view J.frame J.log shared.now.key, (0, None) ∷ []) }
{
    shared.compare_exchange::<Opens<J>>(seat, WORD, UNOPENED, TAKEN);
}

impl<M: Machine> Chronicle<M> {
    /// A lock for this many passes, which is still to be opened. It has its name, so that the frames of other machines
    /// can list it, and no frame yet.
    pub fn reserve(alloc: Global, passes: u32) -> Result<(Chronicle<M>, Unopened<M>), AllocError>
        requires { 0 < passes }
        ensures passes { IfOk result (λ r. (lock_of r.0).passes ≡ passes) }
        ensures unopened { IfOk result (λ r. IsUnopened (lock_of r.0) r.1) }
    {
        let made = Vec::with_capacity(alloc, passes as usize)?;
        let (table, seat) = Table::vacant(
            alloc,
            &[0, 0, 0, 0, 0, 0, 0, 0, UNOPENED, 0, 0, 0, 0, 0, 0, 0],
            1,
            &passes,
        )?;
        let chronicle = Chronicle {
            table,
            opened: Snapshot::of(&seat),
            filled: Badge::blank(),
            bell: Bell::new(),
        };
        Ok((chronicle, Unopened { passes, made, seat }))
    }

    /// Opens the lock for a machine with the frame and the log of `like`. Nobody can enter before `fill`.
    /// The passes are numbered 0, 1, 2 and so on, and have seen the whole log. It takes no memory.
    pub fn open<N: Machine<Entry = M::Entry>>(
        &mut self,
        unopened: Unopened<M>,
        like: &N,
    ) -> (Vec<Pass<M::Entry>>, Vacant<M>)
        requires { IsUnopened (lock_of self.old) unopened }
        ensures name { name_of (lock_of self.new) ≡ name_of (lock_of self.old) }
        ensures lock { LockStartsWith (lock_of self.new) (lock_of self.old).passes (N.frame like.now) (N.log like.now) }
        ensures count { vec_len result.0 ≡ (lock_of self.old).passes }
        ensures numbers { map number_of result.0.items ≡ range_with_len 0 (lock_of self.old).passes }
        ensures ready { All (IsReady (lock_of self.new)) result.0.items }
        ensures seen { All (λ p. seen_by_pass p ≡ (lock_of self.new).start) result.0.items }
        ensures vacant { IsVacant (lock_of self.new) result.1 }
    {
        let Unopened {
            passes,
            mut made,
            mut seat,
        } = unopened;
        open::<M, N, Brand>(&self.table.shared, &mut seat, like);
        self.opened = Snapshot::of(&seat);
        for number in 0..passes {
            let badge = self
                .table
                .shared
                .split_seat::<Deals>(&mut seat)
                .into_badge();
            let before = Snapshot::of(&badge);
            made.push_reserved(Pass {
                number,
                badge,
                before,
            });
        }
        (made, Vacant { seat })
    }

    /// `reserve` and `open` in a row: a lock with this many passes, for a machine with the frame and the log of `like`.
    /// Nobody can enter before `fill`. The passes are numbered 0, 1, 2 and so on, and have seen the whole log.
    pub fn new<N: Machine<Entry = M::Entry>>(
        alloc: Global,
        like: &N,
        passes: u32,
    ) -> Result<(Chronicle<M>, Vec<Pass<M::Entry>>, Vacant<M>), AllocError>
        requires { 0 < passes }
        ensures lock { IfOk result (λ r. LockStartsWith (lock_of r.0) passes (N.frame like.now) (N.log like.now)) }
        ensures count { IfOk result (λ r. vec_len r.1 ≡ passes) }
        ensures numbers { IfOk result (λ r. map number_of r.1.items ≡ range_with_len 0 passes) }
        ensures ready { IfOk result (λ r. All (IsReady (lock_of r.0)) r.1.items) }
        ensures seen { IfOk result (λ r. All (λ p. seen_by_pass p ≡ (lock_of r.0).start) r.1.items) }
        ensures vacant { IfOk result (λ r. IsVacant (lock_of r.0) r.2) }
    {
        let (mut chronicle, unopened) = Chronicle::reserve(alloc, passes)?;
        let (made, vacant) = chronicle.open(unopened, like);
        Ok((chronicle, made, vacant))
    }

    /// Puts the machine in. From then on the passes can enter.
    pub fn fill(&mut self, vacant: Vacant<M>, machine: M)
        requires vacant { IsVacant (lock_of self.old) vacant }
        requires frame { M.frame machine ≡ (lock_of self.old).frame }
        requires log { M.log machine ≡ (lock_of self.old).start }
        ensures lock { lock_of self.new ≡ lock_of self.old }
        ensures filled { IsFilled self.new }
    {
        let Vacant { mut seat } = vacant;
        let shared = &self.table.shared;
        let empty = shared.exchange(&mut seat, SLOT, Some(machine));
        let None = empty else { unreachable!() };
        shared.store::<Leaves>(&mut seat, WORD, FREE);
        self.filled = seat.into_badge();
    }
}
