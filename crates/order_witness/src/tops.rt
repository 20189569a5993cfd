//! Whether the listed requests of each session are in its order: of each session a number above the requests listed.
ghost use Rattle.std.specs.Prelude.{◌≡◌, ◌++◌, ◌∷◌, [], length};
ghost use Rattle.order_witness.specs.Tops.{AreBelowTops, IsPutTop, is_last_of_session};

use crate::by_session::BySession;
use crate::lookups::{request_at, same_session};
use program_defs::Script;

/// Whether none of those listed before is a later request of its session. The request is listed from then on.
///
/// Those listed before are gone through only if the numbers don't show it.
pub fn comes_last(script: &Script, before: &[u32], request: u32, tops: &mut BySession) -> bool
    requires { AreBelowTops script.now before.now tops.old }
    ensures holds { result ≡ is_last_of_session script.now before.now request }
    ensures tops { AreBelowTops script.now (before.now ++ request ∷ []) tops.new }
{
    let surely = put(script, request, tops);
    if surely {
        return true;
    }
    is_last_of_session(script, before, request)
}

// Puts the request below the number of its session. Reports whether the number so far shows that it is the last one.
fn put(script: &Script, request: u32, tops: &mut BySession) -> bool
    ensures { IsPutTop script.now request tops.old tops.new result }
{
    let Some(x) = request_at(script, request) else {
        return true;
    };
    let surely = tops.is_at_most(x.session, request as u64);
    tops.raise(x.session, request as u64 + 1);
    surely
}

fn is_last_of_session(script: &Script, before: &[u32], request: u32) -> bool
    ensures { result ≡ is_last_of_session script.now before.now request }
{
    before.iter().all(|earlier| !same_session(script, *earlier, request) || *earlier < request)
}
