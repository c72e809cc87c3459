// Reads a table from standard input and prints its sheet, or the refusal.
#![tactic(auto)]

use std::io;

fn main(rt: HostRuntime) -> io::Result<()> {
    // The longest table, and one byte more, so that a longer input is seen.
    let mut table = [0u8; outage::LONGEST_TABLE + 1];
    let n = outage_console::read_full(&mut rt.stdin(), &mut table)?;
    let mut out = [0u8; outage_table::LONGEST_SHEET];
    let shown = outage_console::print_sheet(&table[0..n], &mut out);
    rt.write_all(&out[0..shown])
}
