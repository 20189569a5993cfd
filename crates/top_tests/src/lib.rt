//! The tests of the top call, of cores and of the judge that no text shows: paces of workers, statuses, long inputs
//! that are made here, values. What can be said as texts is in the crate `worked_tests`. There is nothing but tests
//! here.
#![tactic(auto)]

#[cfg(test)]
mod core_counts;
#[cfg(test)]
mod core_driven;
#[cfg(test)]
mod cores;
#[cfg(test)]
mod judge_chains;
#[cfg(test)]
mod judge_long;
#[cfg(test)]
mod judge_orders;
#[cfg(test)]
mod judge_rounds;
#[cfg(test)]
mod judge_values;
#[cfg(test)]
mod judge_walks;
#[cfg(test)]
mod judging;
#[cfg(test)]
mod top_calls;
#[cfg(test)]
mod top_paces;
#[cfg(test)]
mod top_runs;
#[cfg(test)]
mod top_threads;
#[cfg(test)]
mod top_traces;
