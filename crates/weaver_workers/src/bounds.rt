//! The requests of a phase, and how many turns there are in it.
ghost use Rattle.std.specs.Prelude.{◌≡◌, ◌≤◌, ◌-◌, ◌*◌, length};
ghost use Rattle.weave_data.specs.Limits.{most_requests};
ghost use Rattle.program_defs.specs.Works.{is_look};
ghost use Rattle.weaver_workers.specs.Phases.{phase_end, phase_start, programs_in};
ghost use Rattle.report_rules.specs.Lookups.{is_program};

use program_defs::{Script, Work};

/// The number of the first request of a phase.
pub fn start_of_phase(script: &Script, phase: u32) -> u32
    requires { length script.now.requests ≤ most_requests }
    ensures { result ≡ phase_start script.now phase }
{
    if phase == 0 {
        return 0;
    }
    end_of_phase(script, phase - 1)
}

/// The number of the first request after a phase.
pub fn end_of_phase(script: &Script, phase: u32) -> u32
    requires { length script.now.requests ≤ most_requests }
    ensures { result ≡ phase_end script.now phase }
{
    match script.phases.as_slice().get(phase as usize) {
        Some(end) => *end,
        None => script.requests.as_slice().len() as u32,
    }
}

/// How many turns a worker of a gatekeeper or a shard takes in a phase from this request up to that one, without it:
/// four for each.
pub fn turns_of(from: u32, upto: u32) -> u32
    requires { upto ≤ most_requests }
    ensures { result ≡ (upto - from) * 4 }
{
    if upto <= from {
        return 0;
    }
    (upto - from) * 4
}

/// In how many of these turns, the first ones, a gatekeeper sends empty messages: four for each program of the phase.
pub fn program_turns(script: &Script, from: u32, upto: u32) -> u32
    requires { upto ≤ most_requests }
    ensures { result ≡ programs_in script.now from (upto - from) * 4 }
{
    let mut turns: u32 = 0;
    for request in from..upto {
        if is_program(script, request) {
            turns += 4;
        }
    }
    turns
}

// Whether this request is a program.
fn is_program(script: &Script, request: u32) -> bool
    ensures { result ≡ is_program script.now request }
{
    match script.requests.as_slice().get(request as usize) {
        Some(asked) => is_look(&asked.work),
        None => false,
    }
}

fn is_look(work: &Work) -> bool
    ensures { result ≡ is_look work.now }
{
    match work {
        Work::Change(_) => false,
        Work::Look(_) => true,
    }
}
