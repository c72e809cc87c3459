// Sheet to table: every row is read into bytes of the call's own before the first byte is written into those lent.
ghost use Rattle.std.specs.Prelude.{◌≡◌, ◌≤◌, length, drop};
ghost use Rattle.lexical_util.specs.Answer.{done, and_then, written, held, of_result};
ghost use Rattle.outage_spec.specs.Table.{table_size, table_of, most_windows};
ghost use Rattle.outage_spec.specs.Sheet.{lines_from};
ghost use Rattle.outage_spec.specs.Calls.{counted_table, sheet_table};
ghost use Rattle.outage_sheet.specs.Fill.{FilledTable};

use crate::row::row_in;
use crate::store::{put_header, put_window};
use lexical_buffer::put_bytes;
use lexical_format::{NumberFormat, Options, check_reading};
use lexical_util::{Reason, Refusal};
use outage::{HEADER_SIZE, LONGEST_TABLE, MOST_WINDOWS, ROW_SIZE, find, read_number};

// The most windows, as wide as a number that is read.
const MOST: u32 = MOST_WINDOWS as u32;

// The rows from a place on, n of them, into a table whose header stands; last 15 for extra bytes.
fn read_rows(
    sheet: &[u8],
    from: usize,
    n: usize,
    format: NumberFormat,
    options: Options,
    table: &mut [u8],
) -> Result<usize, Refusal>
    requires { (from ≤ length sheet.now) × (n ≤ most_windows) × (table_size n ≤ length table.old) }
    ensures result_value { of_result result ≡ and_then (lines_from format options n from (drop from sheet.now)) (λ ws. done (table_size n)) }
    ensures filled_table { FilledTable n 0 table.old (lines_from format options n from (drop from sheet.now)) table.new }
{
    let mut at = from;
    for i in 0..n {
        let newline = find(&sheet[at..], b'\n');
        match row_in(&sheet[at..], newline, format, options) {
            Ok(window) => put_window(table, n, i, window),
            Err(refusal) => return Err(refusal.reason.at(at + refusal.place)),
        }
        at += newline + 1;
    }
    if at < sheet.len() {
        return Err(Reason::WrongSheet.at(at));
    }
    Ok(HEADER_SIZE + ROW_SIZE * n)
}

// The table of the rows from a place on, where the bytes lent are enough for n of them.
fn read_table(
    sheet: &[u8],
    from: usize,
    n: usize,
    format: NumberFormat,
    options: Options,
    table: &mut [u8],
) -> Result<usize, Refusal>
    requires { (from ≤ length sheet.now) × (n ≤ most_windows) × (table_size n ≤ length table.old) }
    ensures result_value { of_result result ≡ written (and_then (lines_from format options n from (drop from sheet.now)) (λ ws. done (table_of ws))) table.old }
    ensures table_after { table.new ≡ held (and_then (lines_from format options n from (drop from sheet.now)) (λ ws. done (table_of ws))) table.old }
{
    let mut rows = [0u8; LONGEST_TABLE];
    put_header(&mut rows, n);
    let size = read_rows(sheet, from, n, format, options, &mut rows)?;
    Ok(put_bytes(table, 0, &rows[..size]))
}

// A sheet under a format that passed: 15 for the count line, 8, then the rows.
fn read_counted(
    sheet: &[u8],
    format: NumberFormat,
    options: Options,
    table: &mut [u8],
) -> Result<usize, Refusal>
    ensures result_value { of_result result ≡ written (counted_table format options sheet.now (length table.old)) table.old }
    ensures table_after { table.new ≡ held (counted_table format options sheet.now (length table.old)) table.old }
{
    let newline = find(sheet, b'\n');
    if newline == sheet.len() {
        return Err(Reason::WrongSheet.at(0));
    }
    let Some(count) = read_number(&sheet[..newline], MOST) else {
        return Err(Reason::WrongSheet.at(0));
    };
    let n = count as usize;
    if table.len() < HEADER_SIZE + ROW_SIZE * n {
        return Err(Reason::NoRoom.at(0));
    }
    read_table(sheet, newline + 1, n, format, options, table)
}

// The table of a sheet. On a refusal the bytes lent are as they were.
pub fn sheet_to_table(
    sheet: &[u8],
    format: NumberFormat,
    options: Options,
    table: &mut [u8],
) -> Result<usize, Refusal>
    ensures result_value { of_result result ≡ written (sheet_table format options sheet.now (length table.old)) table.old }
    ensures table_after { table.new ≡ held (sheet_table format options sheet.now (length table.old)) table.old }
{
    check_reading(format, options)?;
    read_counted(sheet, format, options, table)
}
