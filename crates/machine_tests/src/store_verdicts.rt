//! What the answers of the store are compared with.

use graph_ops::{Got, Reason};
use weave_data::Name;
use weave_entries::{Counted, StoreDeed, StoreEntry, Verdict};

/// It is the commit of this number, with these counts, and these of its `get`s read records with that many properties,
/// or none.
pub fn is_committed(
    verdict: &Verdict,
    number: u64,
    counts: &[(Name, u64)],
    got: &[(u32, Option<usize>)],
) -> bool {
    match verdict {
        Verdict::Committed {
            number: made,
            answers,
            counts: counted,
        } => {
            *made == number
                && are_counts(counted.as_slice(), counts)
                && are_got(answers.as_slice(), got)
        }
        Verdict::Conflict { .. } | Verdict::Refused { .. } => false,
    }
}

fn are_counts(counted: &[Counted], counts: &[(Name, u64)]) -> bool {
    counted.len() == counts.len()
        && counted.iter().zip(counts).all(|(one, other)| one.vertex == other.0
            && one.before == other.1)
}

fn are_got(answers: &[Got], got: &[(u32, Option<usize>)]) -> bool {
    answers.len() == got.len()
        && answers.iter().zip(got).all(|(one, other)| one.op == other.0 && props_of(one) == other.1)
}

fn props_of(got: &Got) -> Option<usize> {
    let Some(record) = &got.state else {
        return None;
    };
    Some(record.props.len())
}

pub fn is_conflict(verdict: &Verdict, at: Name, with: u32) -> bool {
    match verdict {
        Verdict::Conflict { vertex, newer } => *vertex == at && *newer == with,
        Verdict::Committed { .. } | Verdict::Refused { .. } => false,
    }
}

pub fn is_refused(verdict: &Verdict, number: u32, cause: Reason, commits: u64) -> bool {
    match verdict {
        Verdict::Refused { op, reason, at } => *op == number && *reason == cause && *at == commits,
        Verdict::Committed { .. } | Verdict::Conflict { .. } => false,
    }
}

/// The last entry of the store is of this request, and asked of these vertices.
pub fn is_last_judged(log: &[StoreEntry], number: u32, of: &[Name]) -> bool {
    let Some(entry) = log.last() else {
        return false;
    };
    is_judgement(entry, number, of)
}

/// The entry is of this request, and asked of these vertices.
pub fn is_judgement(entry: &StoreEntry, number: u32, of: &[Name]) -> bool {
    let StoreDeed::Judged { request, asked, .. } = &entry.deed;
    *request == number && asked.as_slice() == of
}

/// The last entry of the store has this author.
pub fn is_last_by(log: &[StoreEntry], author: u32) -> bool {
    let Some(entry) = log.last() else {
        return false;
    };
    entry.author == author
}
