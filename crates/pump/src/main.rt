//! `pump KIND.. PIECE` sends standard input through a line of the chosen kind in pieces of the chosen length, and
//! prints each put and take.
//!
//! KIND is `ring` or `straight`, after at most two times `paced NUMBER` for a pacing layer over it. The line has
//! the smallest full size that a line may have.
#![tactic(auto)]

mod arguments;
mod choices;
mod passing;
mod pieces;
mod pumpers;
mod runs;
mod tallies;
mod traces;

use crate::tallies::{Tally, tally_of};
use crate::traces::Trace;
use anyhow::anyhow;
use arguments::{Argument, argument_of};
use choices::{Choice, choose};
use passing::pass;
use std::env;
use std::io::Read;

/// The choice that the arguments make.
fn chosen(rt: &HostRuntime) -> anyhow::Result<Choice> {
    let arguments: Vec<Argument> = env::args(rt)?
        .skip(1)
        .map(|argument| argument_of(argument.as_str()))
        .collect(rt.alloc())?;
    choose(arguments.as_slice()).ok_or_else(|| anyhow!(
        "usage: pump [paced NUMBER [paced NUMBER]] ring|straight PIECE"
    ))
}

/// Prints the events, the counts, and whether what came out is what went in.
fn print_trace(rt: &HostRuntime, input: &[u8], trace: &Trace) -> anyhow::Result<()> {
    for event in trace.events.iter() {
        println!(rt; "{event}")?;
    }
    let Tally {
        puts,
        refusals,
        takes,
    } = tally_of(trace.events.as_slice());
    println!(rt; "{puts} puts, {refusals} refused, {takes} takes")?;
    let sent = input.len();
    let came = trace.out.len();
    let verdict = if trace.out.as_slice() == input {
        "the same"
    } else {
        "not the same"
    };
    println!(rt; "{sent} bytes in, {came} bytes out: {verdict}")?;
    Ok(())
}

fn go(rt: &HostRuntime) -> anyhow::Result<()> {
    let choice = chosen(rt)?;
    let mut input = Vec::new(rt.alloc());
    rt.stdin().read_to_end(&mut input)?;
    match pass(rt.alloc(), choice, input.as_slice()) {
        Ok(trace) => print_trace(rt, input.as_slice(), &trace),
        Err(refusal) => {
            let number = refusal.number();
            println!(rt; "refused, {number} {refusal}")?;
            Ok(())
        }
    }
}

fn main(rt: HostRuntime) -> anyhow::Result<()> {
    go(&rt)
}
