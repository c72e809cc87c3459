// Reads a sheet in one format from standard input and writes the same rows in another, or the refusal.
#![tactic(auto)]

ghost use Rattle.std.specs.Prelude.{◌≤◌, IfOk, length};

use lexical_rewrite_spec::TextFormat;
use outage_console::{LONGEST_SHEET_READ, format_argument};
use std::env::{Env, FillError};
use std::io;

// The longest sheet that is read, and one byte more, so that a longer input is seen.
const ROOM: usize = LONGEST_SHEET_READ + 1;

// All of standard input, as far as there is room.
fn read(rt: &HostRuntime, sheet: &mut [u8; ROOM]) -> io::Result<usize>
    ensures { IfOk result (λ n. n ≤ length sheet.new) }
{
    outage_console::read_full(&mut rt.stdin(), sheet)
}

fn run(rt: &HostRuntime, from: TextFormat, to: TextFormat) -> io::Result<()> {
    let mut sheet = [0u8; ROOM];
    let n = read(rt, &mut sheet)?;
    let mut out = [0u8; outage_table::LONGEST_SHEET];
    let shown = outage_console::rewrite_sheet(&sheet[0..n], from, to, &mut out);
    rt.write_all(&out[0..shown])
}

fn usage(rt: &impl Eprint) -> io::Result<()> {
    rt.eprint(
        "usage: rewrite_sheet FROM TO < sheet > sheet\n\
FROM and TO are RADIX/BASE/EXPONENT-RADIX, as 16/2/10, with radix/base one of\n\
2/2 4/4 8/8 16/16 32/32 4/2 8/2 16/2 32/2 16/4 and exponent radix 2, 4, 8, 10, 16 or 32\n",
    )
}

// Whether argument i is there. Argument 0 is the program's own name.
fn is_given(rt: &impl Env, i: usize) -> bool {
    !matches!(rt.arg(i, &mut []), Err(FillError::NotPresent))
}

fn main(rt: HostRuntime) -> io::Result<()> {
    if is_given(&rt, 3) {
        return usage(&rt);
    }
    let Some(from) = format_argument(&rt, 1) else {
        return usage(&rt);
    };
    let Some(to) = format_argument(&rt, 2) else {
        return usage(&rt);
    };
    run(&rt, from, to)
}
