//! `rehearse [FOLDER]`: performs the commands on standard input on one pair, one to a line, and prints what each is
//! answered. The files that they name stand in the folder, or where the program runs.
#![tactic(auto)]

use rehearsal::{Files, rehearse};
use std::io::{BufReader, BufWriter, Write};
use std::{env, fs, io};

/// The files of a folder.
#[derive(Clone, Copy)]
struct Folder<'a> {
    rt: &'a HostRuntime,
    folder: &'a str,
}

impl Folder<'_> {
    // The path of a file.
    fn path(&self, name: &str) -> io::Result<String> {
        Ok(format!(in self.rt.alloc(); "{}/{name}", self.folder)?)
    }
}

impl Files for Folder<'_> {
    fn read(&mut self, name: &str) -> io::Result<Vec<u8>> {
        fs::read(self.rt, self.path(name)?)
    }

    fn write(&mut self, name: &str, bytes: &[u8]) -> io::Result<()> {
        fs::write(self.rt, self.path(name)?, bytes)
    }
}

fn run(rt: &HostRuntime) -> io::Result<()> {
    let mut out = BufWriter::new(rt.alloc(), rt.stdout())?;
    let input = BufReader::new(rt.alloc(), rt.stdin())?;
    let words: Vec<String> = env::args(rt)?.collect(rt.alloc())?;
    let folder = match words.as_slice() {
        [_, folder, ..] => folder.as_str(),
        _ => ".",
    };
    rehearse(rt.alloc(), input, &mut out, &mut Folder { rt, folder })?;
    out.flush()
}

fn main(rt: HostRuntime) -> anyhow::Result<()> {
    Ok(run(&rt)?)
}
