//! `inspect FILE..`: what saved journals hold, or where they are broken, why, and what can still be read.
#![tactic(auto)]

mod loading;
mod showing;

use crate::loading::load;
use crate::showing::Printer;
use std::io::{BufWriter, Write};
use std::{env, io};

/// Shows each file that is named on the command line.
fn run(rt: &HostRuntime) -> io::Result<()> {
    let mut printer = Printer {
        heap: rt.alloc(),
        out: BufWriter::new(rt.alloc(), rt.stdout())?,
    };
    let mut paths = env::args(rt)?.skip(1).peekable();
    if paths.peek().is_none() {
        writeln!(printer.out, "usage: inspect FILE..")?;
    }
    for path in paths {
        match load(rt, path.as_str()) {
            Ok(bytes) => printer.show_saved(path.as_str(), bytes)?,
            Err(why) => writeln!(printer.out, "{path}: {why}")?,
        }
    }
    printer.out.flush()
}

fn main(rt: HostRuntime) -> anyhow::Result<()> {
    run(&rt)?;
    Ok(())
}
