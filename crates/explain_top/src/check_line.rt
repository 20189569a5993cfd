//! What `check` writes.
ghost use Rattle.std.specs.Prelude.{◌≡◌, Some, map, string_bytes, IsTrue, IfOk};
ghost use Rattle.explain_top.specs.Explained.{IsAnswered};
ghost use Rattle.weave_io.specs.Told.{Writes};
ghost use Rattle.weaver_top.specs.Answers.{TellsAt};
ghost use Rattle.weaver_top.specs.Commands.{AreWordsOf};
ghost use Rattle.weaver_top.specs.declared.command.Command.TheVariants as command;

use std::alloc::{AllocError, Global};
use weave_io::{MemorySink, MemorySource};
use weaver_top::{Status, execute};

/// What `check` writes for an input, and its status.
#[derive(Drop)]
pub(crate) struct Asked {
    pub(crate) status: Status,
    pub(crate) line: Vec<u8>,
}

/// What `check` writes for an input that was read.
pub(crate) fn ask_check(alloc: Global, input: &[u8]) -> Result<Asked, AllocError>
    ensures line { IfOk result (λ asked. TellsAt command.Check asked.status input.now asked.line.items) }
    ensures answered { IfOk result (λ asked. IsAnswered asked.status) }
{
    let words = check_words(alloc)?;
    let bytes = Vec::from_slice(alloc, input)?;
    let mut source = MemorySource::new(bytes, Vec::new(alloc), PIECE);
    let mut sink = MemorySink::new(alloc, Vec::new(alloc), PIECE);
    let status = check(alloc, &words, &mut source, &mut sink);
    // A sink in memory fails only if memory runs out.
    if !is_answered(status) {
        return Err(AllocError);
    }
    let line = Vec::from_slice(alloc, sink.bytes())?;
    Ok(Asked { status, line })
}

/// The most bytes that a call of the source gives and the sink takes.
const PIECE: usize = 65_536;

// The command line of `check`.
fn check_words(alloc: Global) -> Result<Vec<String>, AllocError>
    ensures { IfOk result (λ words. AreWordsOf (map string_bytes words.items) command.Check) }
{
    let mut words = Vec::new(alloc);
    words.push(String::from_str(alloc, "check")?)?;
    Ok(words)
}

// Does `check` from and to memory.
fn check(
    alloc: Global,
    words: &[String],
    source: &mut MemorySource,
    sink: &mut MemorySink,
) -> Status
    requires { AreWordsOf (map string_bytes words.now) command.Check }
    ensures { IsAnswered result
        → Writes (TellsAt command.Check result) (Some source.old.left) (Some sink.old.written) (Some sink.new.written) }
{
    execute(alloc, words, source, sink)
}

// Whether a text was written.
fn is_answered(status: Status) -> bool
    ensures { IsTrue result → IsAnswered status }
{
    matches!(status, Status::Done | Status::NotRight | Status::Refused)
}
