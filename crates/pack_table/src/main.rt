// Reads a table from standard input and writes it packed, or the refusal.
#![tactic(auto)]

use outage::LONGEST_TABLE;
use std::io;

fn main(rt: HostRuntime) -> io::Result<()> {
    // The longest table, and one byte more, so that a longer input is seen.
    let mut table = [0u8; LONGEST_TABLE + 1];
    let n = outage_console::read_full(&mut rt.stdin(), &mut table)?;
    let mut out = [0u8; LONGEST_TABLE];
    let shown = outage_console::pack_table(&table[0..n], &mut out);
    rt.write_all(&out[0..shown])
}
