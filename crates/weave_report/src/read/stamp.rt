//! Stamps.
ghost use Rattle.std.specs.Prelude.{◌≡◌, []};
ghost use Rattle.weave_report.specs.ReadAnswers.{Gives, GivesExactly};
ghost use Rattle.weave_report.specs.ReadingLists.{counted_stamp, few_counts};
ghost use Rattle.weave_report.specs.ReadingFields.{count_in, read_stamp, stamp_with_counts, stamp_parts};

use crate::fault::{LineFault, ReportCause};
use std::alloc::Global;
use vector_stamp::{COUNTS, Clock, Stamp};
use weave_data::Items;
use weave_text::{Pieces, number};

/// A stamp, in a script of `gates` gatekeepers.
pub(crate) fn stamp_in(alloc: Global, gates: u32, word: &[u8]) -> Result<Stamp, LineFault>
    ensures { Gives result (read_stamp gates word.now) }
{
    stamp_parts(alloc, gates, Pieces::new(b':', word))
}

// The stamp of the parts between colons.
fn stamp_parts(alloc: Global, gates: u32, mut parts: Pieces) -> Result<Stamp, LineFault>
    ensures { Gives result (stamp_parts gates parts.entry) }
{
    let Some(epoch) = parts.next() else {
        return Err(LineFault::Refused(ReportCause::Stamp));
    };
    let Some(home) = parts.next() else {
        return Err(LineFault::Refused(ReportCause::Stamp));
    };
    let Some(counts) = parts.next() else {
        return Err(LineFault::Refused(ReportCause::Stamp));
    };
    if let Some(_) = parts.next() {
        return Err(LineFault::Refused(ReportCause::Stamp));
    }
    let epoch = count_in(epoch)?;
    let home = count_in(home)?;
    counted_stamp(alloc, gates, epoch, home, Pieces::new(b',', counts))
}

// The stamp of an epoch, a home, and the words of its counts.
fn counted_stamp(
    alloc: Global,
    gates: u32,
    epoch: u64,
    home: u64,
    words: Pieces,
) -> Result<Stamp, LineFault>
    ensures { Gives result (counted_stamp gates epoch home words.entry) }
{
    let counts = counts_in(alloc, words)?;
    stamp_of(gates, epoch, home, counts.as_slice())
}

fn count_in(word: &[u8]) -> Result<u64, LineFault>
    ensures { GivesExactly result (count_in word.now) }
{
    match number(word) {
        Some(count) => Ok(count),
        None => Err(LineFault::Refused(ReportCause::Stamp)),
    }
}

// The counts, of which there are eight at most.
fn counts_in(alloc: Global, words: Pieces) -> Result<Items<u64>, LineFault>
    ensures { Gives result (few_counts [] words.entry) }
{
    let mut counts = Items::new(alloc);
    for word in words {
        if counts.as_slice().len() == COUNTS {
            return Err(LineFault::Refused(ReportCause::Stamp));
        }
        counts.push(count_in(word)?)?;
    }
    Ok(counts)
}

fn stamp_of(gates: u32, epoch: u64, home: u64, counts: &[u64]) -> Result<Stamp, LineFault>
    ensures { GivesExactly result (stamp_with_counts gates epoch home counts.now) }
{
    if home >= u64::from(gates) || counts.len() != (gates as usize).min(COUNTS) {
        return Err(LineFault::Refused(ReportCause::Stamp));
    }
    let mut eight = [0; COUNTS];
    eight[..counts.len()].copy_from_slice(counts);
    Ok(Stamp {
        home: home as u32,
        clock: Clock {
            epoch,
            counts: eight,
        },
    })
}
