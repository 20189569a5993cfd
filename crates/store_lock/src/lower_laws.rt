//! The laws of the crates below, in one.
ghost use Rattle.store_lock.specs.VerdictLaws.{VerdictLaws};

use backing_store::laws::commits_come_after_the_last;
use graph_ops::laws::each_vertex_is_named_once;
use vector_stamp::laws::precedence_is_decided;
use weave_entries::laws::verdicts_say_what_was_judged;

/// The laws that a right verdict relies on.
pub(crate) fn verdicts_are_right()
    ensures { VerdictLaws }
{
    commits_come_after_the_last();
    each_vertex_is_named_once();
    precedence_is_decided();
    verdicts_say_what_was_judged();
}
