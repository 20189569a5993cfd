//! Writing a text whole.
ghost use Rattle.std.specs.Prelude.{◌≡◌, ◌≤◌, ◌⊎◌, OnOk, OnErr};
ghost use Rattle.weave_io.specs.Counts.{HasRisen};
ghost use Rattle.weave_io.specs.Told.{Appends, AppendsPrefix};

use crate::faults::WriteFault;
use crate::sink::Sink;

/// Writes all of a text. It takes no memory of its own.
pub fn write_all<K: Sink>(sink: &mut K, text: &[u8]) -> Result<(), WriteFault>
    ensures ok { OnOk result (Appends (K.written sink.old) (K.written sink.new) text.now) }
    ensures without_stall { OnOk result (K.stalls sink.new ≡ K.stalls sink.old) }
    ensures fault { OnErr result
        (HasRisen (K.faults sink.old) (K.faults sink.new) ⊎ HasRisen (K.stalls sink.old) (K.stalls sink.new)) }
    ensures prefix { AppendsPrefix (K.written sink.old) (K.written sink.new) text.now }
    ensures faults_never_fall { K.faults sink.old ≤ K.faults sink.new }
    ensures stalls_never_fall { K.stalls sink.old ≤ K.stalls sink.new }
{
    let mut at = 0;
    while at < text.len() {
        let count = sink.put(&text[at..])?;
        if count == 0 {
            return Err(WriteFault);
        }
        at += count;
    }
    Ok(())
}
