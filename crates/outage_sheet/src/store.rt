// A table's bytes, little endian.
ghost use Rattle.std.specs.Prelude.{◌≡◌, ◌+◌, ◌≤◌, ◌<◌, length};
ghost use Rattle.lexical_buffer.specs.Put.{put};
ghost use Rattle.outage_spec.specs.Words.{to_bytes};
ghost use Rattle.outage_spec.specs.Table.{table_size, most_windows};
ghost use Rattle.outage_sheet.specs.Fill.{Stored, put_window, put_header};

use outage::{FLOAT_SIZE, HEADER_SIZE, ROW_SIZE};
use outage_spec::Window;

// The lowest bytes of a number, so many of them, from a place on.
fn put_word(table: &mut [u8], at: usize, value: u64, size: usize)
    requires { at + size ≤ length table.old }
    ensures { table.new ≡ put table.old at (to_bytes size value) }
{
    let mut rest = value;
    for byte in &mut table[at..at + size] {
        *byte = (rest % 256) as u8;
        rest = rest / 256;
    }
}

// The count, and the table's length.
pub(crate) fn put_header(table: &mut [u8], n: usize)
    requires { (n ≤ most_windows) × (table_size n ≤ length table.old) }
    ensures { table.new ≡ put_header table.old n }
{
    put_word(table, 0, n as u64, 4);
    put_word(table, 4, (HEADER_SIZE + ROW_SIZE * n) as u64, 4);
}

// Row i of n: a start, and as far behind the starts an end.
pub(crate) fn put_window(table: &mut [u8], n: usize, i: usize, window: Window)
    requires { (i < n) × (n ≤ most_windows) × (table_size n ≤ length table.old) × Stored window }
    ensures { table.new ≡ put_window table.old n i window }
{
    put_word(
        table,
        HEADER_SIZE + FLOAT_SIZE * i,
        f64::to_bits(window.start),
        FLOAT_SIZE,
    );
    put_word(
        table,
        HEADER_SIZE + FLOAT_SIZE * n + FLOAT_SIZE * i,
        f64::to_bits(window.end),
        FLOAT_SIZE,
    );
}
