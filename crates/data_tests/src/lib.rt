//! The tests of names, maps, lines, input and output, stamps, queues, the plain graph, and scripts and reports. There
//! is nothing but tests here.
#![tactic(auto)]

#[cfg(test)]
mod account_tests;
#[cfg(test)]
mod graph_limits;
#[cfg(test)]
mod graph_making;
#[cfg(test)]
mod graph_programs;
#[cfg(test)]
mod graph_tests;
#[cfg(test)]
mod io_tests;
#[cfg(test)]
mod load_tests;
#[cfg(test)]
mod name_tests;
#[cfg(test)]
mod names;
#[cfg(test)]
mod queue_tests;
#[cfg(test)]
mod report_tests;
#[cfg(test)]
mod script_tests;
#[cfg(test)]
mod stamp_tests;
#[cfg(test)]
mod standard_tests;
#[cfg(test)]
mod text_tests;
