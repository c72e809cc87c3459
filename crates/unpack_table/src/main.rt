// Reads a packed table from standard input and writes the table, or the refusal.
#![tactic(auto)]

use outage::LONGEST_TABLE;
use std::io;

fn main(rt: HostRuntime) -> io::Result<()> {
    // The longest packed table, and one byte more, so that a longer input is seen.
    let mut packed = [0u8; LONGEST_TABLE + 1];
    let n = outage_console::read_full(&mut rt.stdin(), &mut packed)?;
    let mut out = [0u8; LONGEST_TABLE];
    let shown = outage_console::unpack_table(&packed[0..n], &mut out);
    rt.write_all(&out[0..shown])
}
