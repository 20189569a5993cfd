//! The lines for what a report doesn't keep.
ghost use Rattle.std.specs.Prelude.{IsTrue};
ghost use Rattle.order_witness.specs.Judgement.{has_numbered_operations};
ghost use Rattle.report_rules.specs.RightReport.{IsRightReport};

use program_defs::Script;
use report_rules::Report;
use run_judge::{Meeting, PhaseFault, PhasePart, judge_run};
use std::alloc::{AllocError, Global};
use weave_text::Text;

/// Writes a line for each promise: the first place at which it fails, or `kept`. A meeting's has the earlier request
/// and the vertex, one of phases the part and the other request.
pub fn push_promises(
    alloc: Global,
    text: &mut Text,
    script: &Script,
    report: &Report,
) -> Result<(), AllocError>
    requires right { IsRightReport script.now report.now }
    requires numbered { IsTrue (has_numbered_operations script.now) }
{
    let faults = judge_run(alloc, script, report)?;
    place_line(text, b"order", faults.order)?;
    meeting_line(text, script, faults.meetings)?;
    phase_line(text, script, faults.phases)?;
    place_line(text, b"replies", faults.replies)?;
    place_line(text, b"steps", faults.steps)
}

fn place_line(text: &mut Text, word: &[u8], place: Option<u64>) -> Result<(), AllocError> {
    text.push(word)?;
    match place {
        Some(place) => text.number_word(place)?,
        None => text.word(b"kept")?,
    }
    text.end_line()
}

fn meeting_line(
    text: &mut Text,
    script: &Script,
    meeting: Option<Meeting>,
) -> Result<(), AllocError> {
    let Some(meeting) = meeting else {
        return place_line(text, b"meetings", None);
    };
    text.push(b"meetings")?;
    text.number_word(meeting.place)?;
    name_word(text, script, meeting.earlier)?;
    text.word(meeting.vertex.bytes())?;
    text.end_line()
}

fn phase_line(
    text: &mut Text,
    script: &Script,
    fault: Option<PhaseFault>,
) -> Result<(), AllocError> {
    let Some(fault) = fault else {
        return place_line(text, b"phases", None);
    };
    text.push(b"phases")?;
    text.number_word(fault.place)?;
    text.word(part_word(fault.part))?;
    name_word(text, script, fault.other)?;
    text.end_line()
}

fn part_word(part: PhasePart) -> &'static [u8] {
    match part {
        PhasePart::Precedence => b"precedence",
        PhasePart::Conflict => b"conflict",
        PhasePart::Number => b"number",
        PhasePart::EarlierRefusal => b"earlier_refusal",
        PhasePart::Refusal => b"refusal",
    }
}

fn name_word(text: &mut Text, script: &Script, request: u32) -> Result<(), AllocError> {
    match script.requests.as_slice().get(request as usize) {
        Some(its) => text.word(its.name.bytes()),
        None => Ok(()),
    }
}
