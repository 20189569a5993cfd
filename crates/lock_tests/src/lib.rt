//! The tests of locks: the lock itself, a row of locks, all machines behind locks with each call of `Shared`, in
//! `hands` what hands do with these calls, and in `turns` what a phase's workers do with hands. There is nothing but
//! tests here, and the types of what a hand's next calls rely on, which definitions name.
#![tactic(auto)]

#[cfg(test)]
mod answer_texts;
#[cfg(test)]
mod bench;
#[cfg(test)]
mod calls;
#[cfg(test)]
mod calls_at_gates;
#[cfg(test)]
mod calls_at_shards;
#[cfg(test)]
mod chronicle_tests;
#[cfg(test)]
mod dropping;
pub mod hands;
#[cfg(test)]
mod log_texts;
#[cfg(test)]
mod machines;
#[cfg(test)]
mod play;
#[cfg(test)]
mod row_tests;
#[cfg(test)]
mod rows;
#[cfg(test)]
mod texts;
#[cfg(test)]
mod thread_rows;
#[cfg(test)]
mod threads;
pub mod turns;
#[cfg(test)]
mod values;
pub mod worker;
