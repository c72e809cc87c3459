// Runs examples through the compiled calls, and prints what each answered, one line each.
#![tactic(auto)]

mod digits;
mod exponents;
mod floats;
mod formats;
mod order;
mod print;
mod steps;
mod texts;

use std::io;

fn main(rt: HostRuntime) -> io::Result<()> {
    digits::run(&rt)?;
    steps::run(&rt)?;
    floats::run(&rt)?;
    order::run(&rt)?;
    exponents::run(&rt)?;
    formats::run(&rt)?;
    texts::run(&rt)
}
