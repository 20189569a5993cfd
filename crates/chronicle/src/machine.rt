//! What a lock is around.

/// A value with a log. Its frame and the replay of its log give its state: the value's own type keeps that.
pub trait Machine {
    /// An entry of the log, without its author's number.
    type Entry;

    ghost use Rattle.std.specs.Prelude.{ℕ, List};
    ghost use Rattle.chronicle.specs.Frames.{Frame};

    // What no holder changes: lists of numbers. It has the names of the locks of which the machine keeps notes.
    ghost frame: { Self → Frame };

    // The entries so far, each with its author's number.
    ghost log: { Self → List (ℕ × Self.Entry) };
}
