//! Worked examples by one theorem over their list, and tests of packets, captures, lines, logs and accounts on examples.
//!
//! Left out: ends and pairs, whose tests are in the crate `pair_tests`.
#![tactic(auto)]

#[cfg(test)]
mod account_tests;
#[cfg(test)]
mod capture_tests;
pub mod examples;
#[cfg(test)]
mod line_tests;
#[cfg(test)]
mod log_tests;
#[cfg(test)]
mod packet_reading_tests;
#[cfg(test)]
mod packet_writing_tests;
