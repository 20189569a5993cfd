//! The tests of the oracle on a chain of replicas: worked rows, random calls beside a plain model, and the store over a
//! chain. There is nothing but tests here.
#![tactic(auto)]

#[cfg(test)]
mod calls;
#[cfg(test)]
mod chain_row;
#[cfg(test)]
mod plain;
#[cfg(test)]
mod random_tests;
#[cfg(test)]
mod row_tests;
#[cfg(test)]
mod single;
#[cfg(test)]
mod store_row;
#[cfg(test)]
mod store_tests;
