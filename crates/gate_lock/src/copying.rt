//! Copies of messages.
ghost use Rattle.std.specs.Prelude.{◌≡◌, IfOk, option_copied};

use std::alloc::{AllocError, Global};
use weave_data::Copied;
use weave_entries::Message;

/// A copy of a message, if there is one. The one error is out of memory.
pub(crate) fn copy_of(alloc: Global, found: Option<&Message>) -> Result<Option<Message>, AllocError>
    ensures { IfOk result (λ copied. copied ≡ option_copied found.entry) }
{
    match found {
        None => Ok(None),
        Some(message) => Ok(Some(message.copy(alloc)?)),
    }
}
