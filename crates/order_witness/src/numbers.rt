//! The clause on numbers: the commit numbers are 1 up to their count, each once.
ghost use Rattle.std.specs.Prelude.{◌≡◌, ℕ, ◌<◌, ◌/◌, ◌==◌, ◌&&◌, ◌||◌, nat_lt, nat_le, not, false, length, IsTrue, IfOk};
ghost use Rattle.report_rules.specs.declared.report.Reply.{Reply};
ghost use Rattle.weave_data.specs.Facts.{facts_in_turn};
ghost use Rattle.report_rules.specs.RightReport as right;
ghost use Rattle.report_rules.specs.Lookups as lookups;
ghost use Rattle.order_witness.specs.Bits.{has_bit};
ghost use Rattle.order_witness.specs.Judgement.{IsFirstFault};
ghost use Rattle.order_witness.specs.Seen.{is_number_new};

use crate::bits::Row;
use crate::lookups::{commits, number_of};
use report_rules::{Reply, Report};
use std::alloc::{AllocError, Global};

/// The first reply line whose number is 0, repeats an earlier one or is above the count, from 1.
pub fn first_fault(alloc: Global, report: &Report) -> Result<Option<u64>, AllocError>
    ensures { IfOk result (IsFirstFault (right.numbers_clause report.now)) }
{
    let mut seen = Row::empty(alloc, report.replies.as_slice().len())?;
    Ok(first_out_of_place(report.replies.as_slice(), commits(report), &mut seen))
}

fn first_out_of_place(replies: &[Reply], count: usize, seen: &mut Row) -> Option<u64>
    requires none { (n : ℕ) → has_bit seen.old n ≡ false }
    requires room { count / 64 < length seen.old }
    ensures { IsFirstFault (facts_in_turn
        (λ before (reply : Reply). IsTrue (
        right.is_number_in_place count before (lookups.committed_number reply.state)))
        replies.now) result }
{
    for (place, reply) in replies.iter().enumerate() {
        let holds = see(seen, number_of(&reply.state), count);
        if !holds {
            return Some(place as u64 + 1);
        }
    }
    None
}

// Whether the number, if there is one, is in place. If it is, it is seen from then on.
fn see(seen: &mut Row, number: Option<u64>, count: usize) -> bool
    requires { count / 64 < length seen.old }
    ensures size { length seen.new ≡ length seen.old }
    ensures holds { result ≡ is_number_new count seen.old number }
    ensures after { IsTrue result → (n : ℕ) → has_bit seen.new n
        ≡ (has_bit seen.old n || lookups.is_some_and (λ m. n == m) number) }
{
    match number {
        Some(number) => see_number(seen, number, count),
        None => true,
    }
}

fn see_number(seen: &mut Row, number: u64, count: usize) -> bool
    requires { count / 64 < length seen.old }
    ensures size { length seen.new ≡ length seen.old }
    ensures holds { result ≡ (nat_lt 0 number && nat_le number count && not (has_bit seen.old number)) }
    ensures after { IsTrue result → (n : ℕ) → has_bit seen.new n ≡ (has_bit seen.old n || n == number) }
{
    let holds = is_in_place(seen, number, count);
    if holds {
        seen.put(number as usize);
    }
    holds
}

fn is_in_place(seen: &Row, number: u64, count: usize) -> bool
    ensures { result ≡ (nat_lt 0 number && nat_le number count && not (has_bit seen.now number)) }
{
    0 < number && number <= count as u64 && !seen.has(number as usize)
}
