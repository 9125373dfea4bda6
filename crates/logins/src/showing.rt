//! Replies and the table in words.
use crate::login_states::Reply;
use account::Accounts;
use std::io;
use std::io::Write;

/// Writes what an instruction was answered.
pub fn show_answer<W: Write>(out: &mut W, answer: Reply) -> io::Result<()> {
    match answer {
        Reply::Added(Ok(row)) => writeln!(out, "    row {row}"),
        Reply::Added(Err(refusal)) => {
            let number = refusal.number();
            writeln!(out, "    refused, {number} {refusal}")
        }
        Reply::Noted => writeln!(out, "    noted"),
        Reply::Decided(status) => {
            let letter = char::from(u8::from(status));
            writeln!(out, "    '{letter}' {status}")
        }
        Reply::LoggedOut(Some(row)) => writeln!(out, "    row {row} is logged out"),
        Reply::LoggedOut(None) => writeln!(out, "    no such user and computer ID"),
    }
}

/// Writes the rows of a table with their marks.
pub fn show_table<W: Write>(out: &mut W, accounts: &Accounts) -> io::Result<()> {
    let count = accounts.count();
    writeln!(out, "rows in use: {count}")?;
    for row in accounts.rows() {
        out.write_all(b"    ")?;
        out.write_all(&row.account.user)?;
        out.write_all(b" ")?;
        out.write_all(&row.account.computer)?;
        out.write_all(b" ")?;
        out.write_all(&row.account.protocol)?;
        out.write_all(if row.marked {
            b" logged in\n"
        } else {
            b" free\n"
        })?;
    }
    Ok(())
}
