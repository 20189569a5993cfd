//! Makes a script.
ghost use Rattle.std.specs.Prelude.{◌≡◌, ◌≤◌, IfOk};
ghost use Rattle.weave_data.specs.Limits.{most_requests};
ghost use Rattle.load_maker.specs.Generated.{script_of};
ghost use Rattle.weave_script.specs.Scripts.{IsScript};

use crate::requests::draw_requests;
use crate::steps::draw_steps;
use program_defs::Script;
use rand_core::SeedableRng;
use rand_pcg::Lcg64Xsh32;
use std::alloc::{AllocError, Global};
use weave_data::Items;

/// The script of a seed, with `size` requests, 1 to 10,000, and four times as many steps.
/// The one error is out of memory.
pub fn make(alloc: Global, seed: u64, size: u32) -> Result<Script, AllocError>
    requires { (1 ≤ size) × (size ≤ most_requests) }
    ensures exact { IfOk result (λ script. script ≡ script_of seed size) }
    ensures valid { IfOk result (λ script. IsScript script) }
{
    let mut words = Lcg64Xsh32::seed_from_u64(seed);
    let requests = draw_requests(alloc, &mut words, size)?;
    let steps = draw_steps(alloc, &mut words, size, 4 * size)?;
    Ok(Script {
        gates: 3,
        shards: 4,
        requests,
        phases: Items::new(alloc),
        steps: Some(steps),
    })
}
