// The mission's week over edge floats, and chains that are long or refused: what each call answered, one line each.
#![tactic(auto)]

mod chains;
mod floats;
mod formats;
mod print;

use std::io;

fn main(rt: HostRuntime) -> io::Result<()> {
    floats::run(&rt)?;
    chains::run(&rt)
}
