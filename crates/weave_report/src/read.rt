//! Reports read from their texts.
ghost use Rattle.std.specs.Prelude.{◌≡◌, ◌≤◌, ◌<◌, ◌+◌, ◌^◌, length, IfOk};
ghost use Rattle.program_defs.specs.declared.script.Script.{Script};
ghost use Rattle.report_rules.specs.declared.report.Report.{Report};
ghost use Rattle.weave_report.specs.FirstRefusal.{IsFirstRefusal};
ghost use Rattle.weave_report.specs.ReadAnswers.{Answers, AnswersExactly, GivesAt, IfLineRefused, IfRefusedAs, IsReadAs};
ghost use Rattle.weave_report.specs.Reading.{after_report_line, after_lines, report_in, report_start, whole_report};
ghost use Rattle.report_rules.specs.ReportOf.{IsReportOf};
ghost use Rattle.weave_report.specs.ReportText.{report_text};
ghost use Rattle.weave_report.specs.TextOf.{IsReportTextOf, IsTypedReport, HasDistinctNames};
ghost use Rattle.weave_text.specs.Cutting.{lines_of, words_of};

mod fields;
mod lines;
mod named;
mod parts;
mod priced;
mod record;
mod reply;
mod stamp;
mod state;
mod step;

use crate::fault::{LineFault, ReportCause, ReportFault};
use crate::read::lines::after_line;
use crate::read::named::Named;
use crate::read::parts::{Place, Reading};
use crate::reading_laws::{printed_reports_come_back, read_texts_are_texts, refusals_are_first};
use program_defs::Script;
use report_rules::Report;
use std::alloc::Global;
use weave_data::Items;
use weave_text::{Pieces, is_skipped};

/// The report for the script of which the bytes are a text, whose first line has this number.
///
/// `Refused` names the first line that can't be accepted, and the first cause that holds in it.
pub fn read_report(
    alloc: Global,
    script: &Script,
    bytes: &[u8],
    first_line: u32,
) -> Result<Report, ReportFault>
    requires told_by_name { HasDistinctNames script.now }
    requires from_one { 1 ≤ first_line }
    requires room { first_line + length bytes.now < 2 ^ 32 }

    // The report, or the first line that can't be accepted, unless memory runs out.
    ensures exact { Answers result (report_in script.now first_line bytes.now) }

    // What is read is a text of that report, every text of a report is read as it, and what is refused is a text of
    // none.
    ensures read { IfOk result (λ report. IsReportTextOf script.now bytes.now report) }
    ensures complete { (report : Report) → IsReportTextOf script.now bytes.now report → IsReadAs report result }
    ensures refused { IfLineRefused result ((report : Report) → ¬ IsReportTextOf script.now bytes.now report) }

    // The lines before the one that is reported are accepted, and a printed report is read as that report.
    ensures first { IfRefusedAs result (IsFirstRefusal script.now first_line report_start (lines_of bytes.now)) }
    ensures printed { (report : Report) → IsReportOf script.now report → IsTypedReport report
        → bytes.now ≡ report_text script.now report → IsReadAs report result }
{
    let Ok(named) = Named::new(alloc, script) else {
        return Err(ReportFault::Memory);
    };
    read_texts_are_texts();
    refusals_are_first();
    printed_reports_come_back();
    read_named(alloc, &named, bytes, first_line)
}

fn read_named(
    alloc: Global,
    script: &Named,
    bytes: &[u8],
    first_line: u32,
) -> Result<Report, ReportFault>
    requires { first_line + length bytes.now < 2 ^ 32 }
    ensures { Answers result (report_in script.now first_line bytes.now) }
{
    after_lines(alloc, script, bytes, first_line)
}

fn after_lines(
    alloc: Global,
    script: &Named,
    bytes: &[u8],
    first_line: u32,
) -> Result<Report, ReportFault>
    requires { first_line + length bytes.now < 2 ^ 32 }
    ensures { Answers result (after_lines script.now first_line report_start (lines_of bytes.now)) }
{
    let mut reading = start(alloc);
    let mut number = first_line;
    let mut left = bytes;
    while let Some((line, rest)) = weave_text::first_line(left) {
        if !is_skipped(line) {
            reading = after_kept_line(alloc, script, reading, number, line)?;
        }
        number += 1;
        left = rest;
    }
    whole_report(number, reading)
}

// The reading after one more line, which has this number and isn't skipped.
fn after_kept_line(
    alloc: Global,
    script: &Named,
    reading: Reading,
    number: u32,
    line: &[u8],
) -> Result<Reading, ReportFault>
    ensures { GivesAt number result (after_report_line script.now reading (words_of line.now)) }
{
    match after_line(alloc, script, reading, Pieces::words(line)) {
        Ok(next) => Ok(next),
        Err(LineFault::Memory) => Err(ReportFault::Memory),
        Err(LineFault::Refused(cause)) => Err(ReportFault::Refused {
            line: number,
            cause,
        }),
    }
}

fn start(alloc: Global) -> Reading
    ensures { result ≡ report_start }
{
    Reading {
        report: Report {
            replies: Items::new(alloc),
            pairs: Items::new(alloc),
            order: Items::new(alloc),
            answers: Items::new(alloc),
        },
        place: Place::Start,
    }
}

fn whole_report(number: u32, reading: Reading) -> Result<Report, ReportFault>
    ensures { AnswersExactly result (whole_report number reading.place reading.report) }
{
    match reading.place {
        Place::Ended => Ok(reading.report),
        _ => Err(ReportFault::Refused {
            line: number,
            cause: ReportCause::End,
        }),
    }
}
