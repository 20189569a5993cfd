//! What was prepared is written.
ghost use Rattle.std.specs.Prelude.{◌≡◌, ◌≢◌, ◌⊎◌};
ghost use Rattle.weave_io.specs.Counts.{HasRisen};
ghost use Rattle.weaver_top.specs.Answers.{Delivers};
ghost use Rattle.weaver_top.specs.CallEnds.{EndsDelivery};

use crate::answer::Answer;
use crate::preparing::PrepareError;
use crate::status::Status;
use weave_io::{Sink, write_all};

/// Writes the text of an answer. If there is none, nothing is written.
pub(crate) fn deliver<K: Sink>(sink: &mut K, prepared: Result<Answer, PrepareError>) -> Status
    ensures { EndsDelivery prepared result (K.written sink.old) (K.written sink.new)
        (HasRisen (K.faults sink.old) (K.faults sink.new)) (HasRisen (K.stalls sink.old) (K.stalls sink.new))
        (K.stalls sink.new ≡ K.stalls sink.old) }
{
    match prepared {
        Ok(answer) => write_answer(sink, &answer),
        Err(PrepareError::Read) => Status::Read,
        Err(PrepareError::Memory) => Status::Memory,
    }
}

// Writes an answer's text.
fn write_answer<K: Sink>(sink: &mut K, answer: &Answer) -> Status
    ensures delivered { Delivers answer.now result (K.written sink.old) (K.written sink.new)
        (HasRisen (K.faults sink.old) (K.faults sink.new) ⊎ HasRisen (K.stalls sink.old) (K.stalls sink.new)) }
    ensures without_stall { result ≢ Status.Write → K.stalls sink.new ≡ K.stalls sink.old }
{
    match write_all(sink, answer.text.as_slice()) {
        Ok(()) => answer.status,
        Err(_) => Status::Write,
    }
}
