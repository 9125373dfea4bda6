//! Rows of the account table.

use crate::fields::Account;

/// A row of the account table.
#[derive(Clone, Copy)]
pub struct Row {
    pub account: Account,
    /// Whether a login by this row is being answered or served.
    pub marked: bool,
}
