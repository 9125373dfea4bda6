//! `retrace FILE..`: performs the commands of saved traces again, and tells each answer that is another one now. It ends
//! with status 1 if there is one, or a file could not be read.
#![tactic(auto)]

use rehearsal::{NoFiles, Retraced, retrace};
use std::io::{BufReader, BufWriter, Write};
use std::process::ExitCode;
use std::{env, fs, io};

// What became of a trace, in a line.
fn show_retraced<W: Write>(out: &mut W, path: &str, retraced: Retraced) -> io::Result<()> {
    let answers = retraced.answers;
    match retraced.others {
        0 => writeln!(out, "{path}: {answers} answers, all as they were"),
        others => writeln!(
            out,
            "{path}: {answers} answers, {others} of them others now"
        ),
    }
}

/// Compares each trace that is named on the command line, and says whether all are as they were.
fn run(rt: &HostRuntime) -> io::Result<bool> {
    let mut same = true;
    let mut out = BufWriter::new(rt.alloc(), rt.stdout())?;
    let mut paths = env::args(rt)?.skip(1).peekable();
    if paths.peek().is_none() {
        writeln!(out, "usage: retrace FILE..")?;
        same = false;
    }
    for path in paths {
        match fs::open(rt, path.as_str()) {
            Ok(file) => {
                let input = BufReader::new(rt.alloc(), file)?;
                let retraced = retrace(rt.alloc(), input, &mut out, &mut NoFiles)?;
                show_retraced(&mut out, path.as_str(), retraced)?;
                same = same && retraced.others == 0;
            }
            Err(why) => {
                writeln!(out, "{path}: {why}")?;
                same = false;
            }
        }
    }
    out.flush()?;
    Ok(same)
}

fn main(rt: HostRuntime) -> anyhow::Result<ExitCode> {
    if run(&rt)? {
        Ok(ExitCode::SUCCESS)
    } else {
        Ok(ExitCode::FAILURE)
    }
}
