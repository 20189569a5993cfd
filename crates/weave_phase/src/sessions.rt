//! Which sessions have requests in a phase.
ghost use Rattle.std.specs.Prelude.{◌≡◌, ◌≤◌, length, IfOk};
ghost use Rattle.weave_phase.specs.Sessions.{has_request, sessions_in};

use program_defs::Script;
use std::alloc::{AllocError, Global};

/// The sessions that have one of the requests from the first number to before the second, rising. It costs a look at
/// each of these requests for each of the 64 sessions. The one error is out of memory.
pub(crate) fn sessions_of(
    alloc: Global,
    script: &Script,
    from: u32,
    upto: u32,
) -> Result<Vec<u32>, AllocError>
    requires order { from ≤ upto }
    requires within { upto ≤ length script.now.requests }
    ensures { IfOk result (λ sessions. sessions.items ≡ sessions_in script.now from upto) }
{
    let mut sessions = Vec::new(alloc);
    for session in 0..64u32 {
        if is_of_session(script, from, upto, session) {
            sessions.push(session)?;
        }
    }
    Ok(sessions)
}

// Whether one of these requests is of the session.
fn is_of_session(script: &Script, from: u32, upto: u32, session: u32) -> bool
    requires order { from ≤ upto }
    requires within { upto ≤ length script.now.requests }
    ensures { result ≡ has_request script.now from upto session }
{
    script.requests.as_slice()[from as usize..upto as usize]
        .iter()
        .any(|request| request.session == session)
}
