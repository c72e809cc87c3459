// Replays lists of cases through the compiled calls, and counts the lines whose answer they give again.
#![tactic(auto)]

ghost use Rattle.std.specs.Prelude.{◌≡◌, length};

mod answer;
mod digits;
mod fields;
mod format;
mod hex;
mod lent;
mod numbers;
mod print;
mod reading;
mod replay;
mod tables;
mod tally;
mod writing;

use outage_console::read_full;
use std::env::{Env, FillError};
use std::fs::{self, Files};
use std::io::{self, Read};

// A list's bytes, and one more, so that a longer list is seen.
fn space() -> [u8; 524288]
    ensures { 524288 ≡ length result }
{
    [0; 524288]
}

fn replay_file(rt: &impl Print, name: &str, file: &mut impl Read) -> io::Result<()> {
    let mut data = space();
    let n = read_full(file, &mut data)?;
    if n == data.len() {
        return println!(rt; "{name}: too long");
    }
    let tally = replay::list(rt, name, &data[..n])?;
    println!(rt; "{name}: {tally}")
}

// A file that cannot be opened is told of, and left out.
fn replay_path(rt: &(impl Files + Print + Eprint), name: &[u8]) -> io::Result<()> {
    let Ok(path) = str::from_utf8(name) else {
        return eprintln!(rt; "argument: not UTF-8");
    };
    match fs::open(rt, path) {
        Ok(mut file) => replay_file(rt, path, &mut file),
        Err(error) => eprintln!(rt; "{path}: {error}"),
    }
}

// The list that argument i names: whether there is such an argument.
fn replay_argument(rt: &(impl Env + Files + Print + Eprint), i: usize) -> io::Result<bool> {
    let mut path = [0u8; 4096];
    match rt.arg(i, &mut path) {
        Ok(length) => replay_path(rt, &path[..length])?,
        Err(FillError::TooLong) => eprintln!(rt; "argument: File name too long")?,
        Err(FillError::NotPresent) => return Ok(false),
    }
    Ok(true)
}

fn main(rt: HostRuntime) -> io::Result<()> {
    for i in 1..usize::MAX {
        if !replay_argument(&rt, i)? {
            break;
        }
    }
    Ok(())
}
