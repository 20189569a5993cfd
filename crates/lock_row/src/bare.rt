//! A machine of a row before it has its notes.

/// What a lock of a row is opened for: a machine that has no notes yet.
pub trait Bare {
    /// An entry of the log, without its author's number.
    type Entry;
    /// What else the frame depends on, such as names of locks of other kinds.
    type Context;

    ghost use Rattle.std.specs.Prelude.{ℕ, List};
    ghost use Rattle.chronicle.specs.Frames.{Frame};

    // The frame that the machine will have, in a row of locks with these names.
    ghost frame: { Self → Self.Context → List (List ℕ) → Frame };

    // The entries so far, each with its author's number.
    ghost log: { Self → List (ℕ × Self.Entry) };
}
