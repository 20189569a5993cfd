//! The clients of a core, each in a place from which it can be taken.
ghost use Rattle.std.specs.Prelude.{◌≡◌, ℕ, map, IfOk, Some, Option, slice_get};
ghost use Rattle.weaver_core.specs.declared.client.Client.{Client};

use std::alloc::{AllocError, Global};
use weaver_core::Client;

/// Each client in its place. The one error is out of memory.
pub(crate) fn into_slots(
    alloc: Global,
    clients: Vec<Client>,
) -> Result<Vec<Option<Client>>, AllocError>
    ensures { IfOk result (λ slots. slots.items ≡ map Some clients.items) }
{
    let mut slots = Vec::new(alloc);
    for client in clients {
        slots.push(Some(client))?;
    }
    Ok(slots)
}

/// The clients out of their places, in which they all are. The one error is out of memory.
pub(crate) fn from_slots(
    alloc: Global,
    slots: Vec<Option<Client>>,
) -> Result<Vec<Client>, AllocError>
    requires { (place : ℕ) (slot : Option Client) → slice_get slots.items place ≡ Some slot
        → (client : Client) × (slot ≡ Some client) }
    ensures { IfOk result (λ clients. map Some clients.items ≡ slots.items) }
{
    let mut clients = Vec::new(alloc);
    for slot in slots {
        let Some(client) = slot else {
            unreachable!();
        };
        clients.push(client)?;
    }
    Ok(clients)
}
