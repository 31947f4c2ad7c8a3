// Runs the library on what is stored in the files that the arguments name: the reader on the model files of the first, and the runs
// of the second. `make.py` makes both, and what is to be written.
#![tactic(auto)]

mod models;
mod runs;

use std::fs::File;
use std::io::{Error, ErrorKind, Result};
use std::{env, fs};

// The file that argument i names, opened for reading; an error where it is not.
fn open_arg(rt: &HostRuntime, i: usize) -> Result<File> {
    match env::args(rt)?.nth(i) {
        Some(path) => fs::open(rt, path),
        None => Err(Error::from(ErrorKind::NotFound)),
    }
}

fn main(rt: HostRuntime) -> Result<()> {
    let mut files = open_arg(&rt, 1)?;
    models::all_files(&rt, &mut files)?;
    let mut runs = open_arg(&rt, 2)?;
    runs::all_runs(&rt, &mut runs)
}
