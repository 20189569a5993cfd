// What each kind of step does to the view of the seat that makes it, and what the seat learns.
use crate::machine::Machine;
use crate::view::View;
use atomic_table::{Join, Play, Split};
use std::marker::{Brand, PhantomData};

// The first author of a seat goes to a seat of its own.
pub(crate) struct Deals;

impl<E> Split<View<E>> for Deals {
    ghost use Rattle.chronicle.specs.Seats.{dealing, dealt_view};

    ghost left = { dealing };

    ghost right = { dealt_view };
}

// A new seat without an author has seen the same.
pub(crate) struct Copies;

impl<E> Split<View<E>> for Copies {
    ghost use Rattle.chronicle.specs.Seats.{copied_view};

    ghost left = { λ v. v };

    ghost right = { copied_view };
}

// A seat takes in the list and the authors of another.
pub(crate) struct Gathers;

impl<E> Join<View<E>> for Gathers {
    ghost use Rattle.chronicle.specs.Seats.{gathered_view, spent_view};

    ghost both = { gathered_view };

    ghost spent = { spent_view };
}

// After a join: the two lists are parts of one log.
pub(crate) struct Compares;

impl<M, E> Play<Option<M>, View<E>> for Compares {
    ghost use Rattle.chronicle.specs.Steps.{ComparesLogs};

    ghost then = { ComparesLogs };
}

pub(crate) struct Enters;

impl<M: Machine> Play<Option<M>, View<M::Entry>> for Enters {
    ghost use Rattle.chronicle.specs.Steps.{EntersLock};

    ghost then = { EntersLock M.frame M.log };
}

pub(crate) struct Leaves;

impl<M: Machine> Play<Option<M>, View<M::Entry>> for Leaves {
    ghost use Rattle.chronicle.specs.Steps.{LeavesLock};

    ghost then = { LeavesLock M.log };
}

// The frame and the log that a lock begins with.
pub(crate) trait Opening<E> {
    ghost use Rattle.std.specs.Prelude.{ℕ, List};
    ghost use Rattle.chronicle.specs.Frames.{Frame};

    ghost frame: { Frame };

    ghost log: { List (ℕ × E) };
}

impl<E> Opening<E> for Brand {
    ghost use Rattle.std.specs.Prelude.{[]};

    ghost frame = { [] };

    ghost log = { [] };
}

pub(crate) struct Opens<J> {
    opening: PhantomData<J>,
}

impl<M: Machine, J: Opening<M::Entry>> Play<Option<M>, View<M::Entry>> for Opens<J> {
    ghost use Rattle.chronicle.specs.Steps.{OpensLock};

    ghost then = { OpensLock J.frame J.log };
}
