//! Tests of a pair on examples, and of a pair whose seat keeps a log of slots.
#![tactic(auto)]

#[cfg(test)]
mod pair_tests;
#[cfg(test)]
mod slot_log_tests;
