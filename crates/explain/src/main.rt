//! Says what a capture holds: the bytes of one direction of a connection, on standard input.
#![tactic(auto)]

use capture::explain;
use std::io::{BufWriter, Write};

fn run(rt: &HostRuntime) -> anyhow::Result<()> {
    let mut input = rt.stdin();
    let mut out = BufWriter::new(rt.alloc(), rt.stdout())?;
    let _ = explain(rt.alloc(), &mut input, &mut out)?;
    out.flush()?;
    Ok(())
}

fn main(rt: HostRuntime) -> anyhow::Result<()> {
    run(&rt)
}
