//! The account table and the login decision.
#![tactic(auto)]

pub mod fields;
pub mod laws;
pub mod logins;
mod lookups;
pub mod rows;
pub mod table;

pub use fields::{Account, lay, padded};
pub use logins::SPOKEN_VERSION;
pub use rows::Row;
pub use table::Accounts;
