//! The lines of the steps.
ghost use Rattle.std.specs.Prelude.{◌≡◌, ◌++◌, map, OnOk};
ghost use Rattle.weave_text.specs.Lines.{line_text, lines_text};
ghost use Rattle.weave_script.specs.ScriptLines.{name_of_request, step_line, steps_lines};

use crate::print::words::{print_named, print_numbers};
use program_defs::{Request, Step};
use std::alloc::AllocError;
use weave_data::Items;
use weave_text::Text;

/// The line `steps` and a line for each step, if the script has them.
pub fn print_steps(
    text: &mut Text,
    requests: &[Request],
    steps: &Option<Items<Step>>,
) -> Result<(), AllocError>
    ensures { OnOk result (text.new ≡ text.old ++ lines_text (steps_lines requests.now steps.now)) }
{
    match steps {
        None => Ok(()),
        Some(steps) => {
            text.push(b"steps\n")?;
            print_each_step(text, requests, steps.as_slice())?;
            Ok(())
        }
    }
}

fn print_each_step(text: &mut Text, requests: &[Request], steps: &[Step]) -> Result<(), AllocError>
    ensures { OnOk result (text.new ≡ text.old ++ lines_text (map (step_line requests.now) steps.now)) }
{
    for step in steps {
        print_step(text, requests, step)?;
    }
    Ok(())
}

fn print_step(text: &mut Text, requests: &[Request], step: &Step) -> Result<(), AllocError>
    ensures { OnOk result (text.new ≡ text.old ++ line_text (step_line requests.now step.now)) }
{
    match *step {
        Step::Begin { request } => print_named(text, b"begin", name_of_request(requests, request)),
        Step::Judge { gate } => print_numbers(text, b"judge", &[u64::from(gate)]),
        Step::Send { gate } => print_numbers(text, b"send", &[u64::from(gate)]),
        Step::Say { gate } => print_numbers(text, b"say", &[u64::from(gate)]),
        Step::Hear { gate, notice } => print_numbers(text, b"hear", &[u64::from(gate), notice]),
        Step::Nop { gate, shard } => print_numbers(
            text,
            b"nop",
            &[u64::from(gate), u64::from(shard)],
        ),
        Step::Deliver {
            gate,
            shard,
            number,
        } => print_numbers(
            text,
            b"deliver",
            &[u64::from(gate), u64::from(shard), number],
        ),
        Step::Apply { shard, gate } => print_numbers(
            text,
            b"apply",
            &[u64::from(shard), u64::from(gate)],
        ),
        Step::Visit { request } => print_named(text, b"visit", name_of_request(requests, request)),
        Step::Reply { request } => print_named(text, b"reply", name_of_request(requests, request)),
        Step::Collect { shard } => print_numbers(text, b"collect", &[u64::from(shard)]),
        Step::Epoch { gate, epoch } => print_numbers(text, b"epoch", &[u64::from(gate), epoch]),
        Step::Restart { gate, epoch } => print_numbers(text, b"restart", &[u64::from(gate), epoch]),
    }
}

// The name of a request, or no bytes if there is none at the place.
fn name_of_request(requests: &[Request], place: u32) -> &[u8]
    ensures { result.now ≡ name_of_request requests.now place }
{
    match requests.get(place as usize) {
        Some(request) => request.name.bytes(),
        None => &[],
    }
}
