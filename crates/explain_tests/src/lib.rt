//! The tests of where a picture has everything, in numbers. What `explain` writes as text is tried by `worked_tests`.
#![tactic(auto)]

#[cfg(test)]
mod layout_tests;
