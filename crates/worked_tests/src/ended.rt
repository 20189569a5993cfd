//! How a call ends.

use std::alloc::{AllocError, Global};
use weave_script::ScriptFault;
use weave_text::Text;
use weaver_top::Status;

/// The status of a call, and what it wrote.
#[derive(Drop)]
pub struct Ended {
    pub status: Status,
    pub text: Vec<u8>,
}

/// The status as cases name it.
pub fn name_of(status: Status) -> &'static str {
    match status {
        Status::Done => "done",
        Status::Read => "read",
        Status::Refused => "refused",
        Status::Write => "write",
        Status::Memory => "memory",
        Status::Words => "words",
        Status::NotRight => "not right",
        Status::Disk => "disk",
        Status::Foreign => "foreign",
    }
}

/// The status of this name.
pub fn status_of(name: &str) -> Option<Status> {
    match name {
        "done" => Some(Status::Done),
        "read" => Some(Status::Read),
        "refused" => Some(Status::Refused),
        "write" => Some(Status::Write),
        "memory" => Some(Status::Memory),
        "words" => Some(Status::Words),
        "not right" => Some(Status::NotRight),
        "disk" => Some(Status::Disk),
        "foreign" => Some(Status::Foreign),
        _ => None,
    }
}

/// A text that is written whole.
pub fn done(text: Vec<u8>) -> Ended {
    Ended {
        status: Status::Done,
        text,
    }
}

/// The line and the cause for which an input is refused.
pub fn refused(alloc: Global, fault: ScriptFault) -> Result<Ended, AllocError> {
    let ScriptFault::Refused { line, cause } = fault else {
        return Err(AllocError);
    };
    let mut text = Text::new(alloc);
    text.push(b"refused")?;
    text.number_word(u64::from(line))?;
    text.word(cause.text())?;
    text.end_line()?;
    Ok(Ended {
        status: Status::Refused,
        text: text.into_bytes(),
    })
}
