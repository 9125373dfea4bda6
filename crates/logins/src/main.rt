//! `logins`: decides the login requests on standard input, one to a line, and prints each decision.
//!
//! The lines are `account USER COMPUTER PROTOCOL`, `hub SESSION HIGHEST`, `login VERSION USER COMPUTER PROTOCOL
//! SESSION NUMBER` and `logout USER COMPUTER`. Blank lines and lines that begin with `#` are passed over.
#![tactic(auto)]

mod instructions;
mod laws;
mod login_states;
mod showing;
mod tokens;

use crate::instructions::{is_passed_over, read};
use crate::login_states::LoginState;
use crate::tokens::{Token, token_of};
use showing::{show_answer, show_table};
use std::alloc::{AllocError, Global};
use std::io;
use std::io::{BufRead, BufReader, BufWriter, Write};

/// The words of a line.
fn tokens_of(heap: Global, line: &str) -> Result<Vec<Token<'_>>, AllocError> {
    line.split_whitespace().map(token_of).collect(heap)
}

/// Does what the words of a line ask for, and shows the line and the answer.
fn take_line<W: Write>(
    out: &mut W,
    state: &mut LoginState,
    line: &str,
    words: &[Token<'_>],
) -> io::Result<()> {
    if is_passed_over(words) {
        return Ok(());
    }
    writeln!(out, "{line}")?;
    match read(words) {
        Ok(instruction) => show_answer(out, state.perform(instruction)),
        Err(why) => writeln!(out, "    malformed: {why}"),
    }
}

fn run(rt: &HostRuntime) -> io::Result<()> {
    let mut out = BufWriter::new(rt.alloc(), rt.stdout())?;
    let mut state = LoginState::new();
    for bytes in BufReader::new(rt.alloc(), rt.stdin())?.split(rt.alloc(), b'\n') {
        let line = String::from_utf8_lossy(rt.alloc(), &bytes?)?;
        let words = tokens_of(rt.alloc(), line.as_str())?;
        take_line(&mut out, &mut state, line.as_str(), words.as_slice())?;
    }
    show_table(&mut out, state.accounts())?;
    out.flush()
}

fn main(rt: HostRuntime) -> anyhow::Result<()> {
    Ok(run(&rt)?)
}
