//! What hands do: each call of theirs with its answers, and the report of what is left when the locks are closed.

#[cfg(test)]
mod answer_texts;
#[cfg(test)]
mod bench;
#[cfg(test)]
pub(crate) mod calls;
#[cfg(test)]
mod many;
#[cfg(test)]
mod messages;
#[cfg(test)]
mod pairs;
#[cfg(test)]
mod play;
#[cfg(test)]
mod programs;
#[cfg(test)]
mod replies;
#[cfg(test)]
pub(crate) mod right_report;
#[cfg(test)]
mod rows;
#[cfg(test)]
mod thread_rows;
#[cfg(test)]
mod threads;
#[cfg(test)]
mod transactions;
pub mod worker;
