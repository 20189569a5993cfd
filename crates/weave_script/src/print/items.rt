//! The lines of requests and phases.
ghost use Rattle.std.specs.Prelude.{◌≡◌, ◌++◌, OnOk, nat_le};
ghost use Rattle.std.specs.List.{prefix_len};
ghost use Rattle.weave_text.specs.Lines.{lines_text};
ghost use Rattle.weave_script.specs.ScriptLines.{due_phases, item_lines, later_phases, phase_lines};

use crate::print::requests::print_request;
use program_defs::Request;
use std::alloc::AllocError;
use weave_text::Text;

/// The requests in order, and each phase's line after as many of them as the phase's number says.
pub fn print_items(text: &mut Text, requests: &[Request], phases: &[u32]) -> Result<(), AllocError>
    ensures { OnOk result (text.new ≡ text.old ++ lines_text (item_lines 0 requests.now phases.now)) }
{
    let mut left = phases;
    for (index, request) in requests.iter().enumerate() {
        let (due, later) = split_due(index, left);
        print_phases(text, due)?;
        print_request(text, request)?;
        left = later;
    }
    print_phases(text, left)?;
    Ok(())
}

fn print_phases(text: &mut Text, phases: &[u32]) -> Result<(), AllocError>
    ensures { OnOk result (text.new ≡ text.old ++ lines_text (phase_lines phases.now)) }
{
    for _phase in phases {
        text.push(b"phase\n")?;
    }
    Ok(())
}

// The phases that are due when `count` requests are written, and the others.
fn split_due(count: usize, phases: &[u32]) -> (&[u32], &[u32])
    ensures due { result.0.now ≡ due_phases count phases.now }
    ensures later { result.1.now ≡ later_phases count phases.now }
{
    phases.split_at(count_due(count, phases))
}

fn count_due(count: usize, phases: &[u32]) -> usize
    ensures { result ≡ prefix_len (λ phase. nat_le phase count) phases.now }
{
    phases
        .iter()
        .take_while(|phase| **phase as usize <= count)
        .count()
}
