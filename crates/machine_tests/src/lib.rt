//! The tests of log entries, gatekeepers, sessions, the store, the oracle, the graph of orders, versions and shards, as
//! far as no text shows what they say. There is nothing but tests here.
#![tactic(auto)]

#[cfg(test)]
mod chain_tests;
#[cfg(test)]
mod entry_tests;
#[cfg(test)]
mod events;
#[cfg(test)]
mod gate_tests;
#[cfg(test)]
mod messages;
#[cfg(test)]
mod oracle_tests;
#[cfg(test)]
mod order_tests;
#[cfg(test)]
mod part_tests;
#[cfg(test)]
mod passing;
#[cfg(test)]
mod session_tests;
#[cfg(test)]
mod settled;
#[cfg(test)]
mod shard_log;
#[cfg(test)]
mod shard_row;
#[cfg(test)]
mod shard_tests;
#[cfg(test)]
mod stopping_tests;
#[cfg(test)]
mod store_calls;
#[cfg(test)]
mod store_judge_tests;
#[cfg(test)]
mod store_row;
#[cfg(test)]
mod store_rows;
#[cfg(test)]
mod store_verdicts;
#[cfg(test)]
mod test_judge;
#[cfg(test)]
mod values;
#[cfg(test)]
mod version_graph_tests;
