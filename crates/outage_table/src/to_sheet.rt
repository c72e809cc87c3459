// Table to sheet: every row is checked, and the sheet is known to have room, before its first byte is written.
ghost use Rattle.std.specs.Prelude.{◌≡◌, ◌∷◌, ◌++◌, ℕ, ◌+◌, ◌≤◌, ◌*◌, leb, length};
ghost use Rattle.lexical_util.specs.Answer.{done, and_then, written, held, of_result};
ghost use Rattle.lexical_write_integer_spec.specs.Digits.{numeral};
ghost use Rattle.lexical_buffer.specs.Put.{Puts};
ghost use Rattle.outage_spec.specs.Table.{table_size, rows_from, table_windows, most_windows};
ghost use Rattle.outage_spec.specs.Sheet.{sheet_of};
ghost use Rattle.outage_spec.specs.Calls.{table_sheet, LongestSheet, WayBack};
ghost use Rattle.outage_table.specs.Text.{contents, rows_of, Admitted};
ghost use Rattle.lexical_write_float_spec.specs.Write.{longest_text};

use crate::format::check_format;
use crate::print::{LONGEST_ROW, put_count, put_row, row_length};
use crate::table::Table;
use lexical_format::{NumberFormat, Options};
use lexical_util::{Reason, Refusal};
use lexical_write_float::LONGEST_TEXT;
use lexical_write_integer::digit_count;
use outage::{MOST_WINDOWS, header_count};

// The longest count line: a number of three digits, and LF.
const COUNT_LINE: usize = 4;

// No sheet is longer.
pub const LONGEST_SHEET: usize = COUNT_LINE + LONGEST_ROW * MOST_WINDOWS;

// The length of all rows, where they pass.
fn rows_length(table: Table, format: NumberFormat, options: Options) -> Result<usize, Refusal>
    requires { Admitted format options }
    ensures result_value { of_result result ≡ and_then (rows_from table.entry.bytes.now table.entry.rows 0 table.entry.rows) (λ ws. done (length (rows_of format options ws))) }
    ensures few { (m : ℕ) → of_result result ≡ done m → m ≤ most_windows * (2 * (longest_text + 1)) }
{
    let mut scratch = [0u8; LONGEST_TEXT];
    let mut sum: usize = 0;
    for i in 0..table.rows {
        let window = table.row(i)?;
        sum += row_length(window, format, options, &mut scratch);
    }
    Ok(sum)
}

// The rows from a place on, where every row passed and they have room.
fn put_rows(
    table: Table,
    sheet: &mut [u8],
    from: usize,
    format: NumberFormat,
    options: Options,
) -> usize
    requires { Admitted format options
        × (rows_from table.bytes.now table.rows 0 table.rows ≡ done (contents (rows_from table.bytes.now table.rows 0 table.rows)))
        × (from + length (rows_of format options (contents (rows_from table.bytes.now table.rows 0 table.rows))) ≤ length sheet.old) }
    ensures { Puts sheet.old from (rows_of format options (contents (rows_from table.entry.bytes.now table.entry.rows 0 table.entry.rows))) result sheet.new }
{
    let mut at = from;
    for row in 0..table.rows {
        let Ok(window) = table.row(row) else {
            return at;
        };
        at = put_row(sheet, at, window, format, options);
    }
    at
}

// Whether the sheet of rows that have passed has room. It is measured only where the longest of so many rows might have none.
fn sheet_has_room(table: Table, room: usize, format: NumberFormat, options: Options) -> bool
    requires { Admitted format options
        × (rows_from table.bytes.now table.rows 0 table.rows ≡ done (contents (rows_from table.bytes.now table.rows 0 table.rows))) }
    ensures { result ≡ leb (length (numeral 10 1 table.entry.rows) + 1 + length (rows_of format options (contents (rows_from table.entry.bytes.now table.entry.rows 0 table.entry.rows)))) room }
{
    let n = table.rows;
    if room >= COUNT_LINE + LONGEST_ROW * n {
        return true;
    }
    match rows_length(table, format, options) {
        Ok(rows) => digit_count(n as u64, 10, 1) + 1 + rows <= room,
        Err(_) => false,
    }
}

// A sheet whose rows have passed: 8, or the count line and the rows.
fn put_sheet(
    table: Table,
    sheet: &mut [u8],
    format: NumberFormat,
    options: Options,
) -> Result<usize, Refusal>
    requires { Admitted format options
        × (rows_from table.bytes.now table.rows 0 table.rows ≡ done (contents (rows_from table.bytes.now table.rows 0 table.rows))) }
    ensures result_value { of_result result ≡ written (done (numeral 10 1 table.entry.rows ++ (10 ∷ rows_of format options (contents (rows_from table.entry.bytes.now table.entry.rows 0 table.entry.rows))))) sheet.old }
    ensures sheet_after { sheet.new ≡ held (done (numeral 10 1 table.entry.rows ++ (10 ∷ rows_of format options (contents (rows_from table.entry.bytes.now table.entry.rows 0 table.entry.rows))))) sheet.old }
{
    if sheet_has_room(table, sheet.len(), format, options) {
        let at = put_count(sheet, table.rows);
        return Ok(put_rows(table, sheet, at, format, options));
    }
    Err(Reason::NoRoom.at(0))
}

// A table under a format that passed: 13, then by row, then 8.
fn print_table(
    table: &[u8],
    format: NumberFormat,
    options: Options,
    sheet: &mut [u8],
) -> Result<usize, Refusal>
    requires { Admitted format options }
    ensures result_value { of_result result ≡ written (and_then (table_windows table.now) (sheet_of format options)) sheet.old }
    ensures sheet_after { sheet.new ≡ held (and_then (table_windows table.now) (sheet_of format options)) sheet.old }
{
    let Some(rows) = header_count(table) else {
        return Err(Reason::WrongTable.at(0));
    };
    let table = Table { bytes: table, rows };
    table.check()?;
    put_sheet(table, sheet, format, options)
}

// The sheet of a table. On a refusal the bytes lent are as they were.
pub fn table_to_sheet(
    table: &[u8],
    format: NumberFormat,
    options: Options,
    sheet: &mut [u8],
) -> Result<usize, Refusal>
    ensures result_value { of_result result ≡ written (table_sheet format options table.now) sheet.old }
    ensures sheet_after { sheet.new ≡ held (table_sheet format options table.now) sheet.old }
    ensures longest { LongestSheet (of_result result) }
    ensures way_back { WayBack format options table.now (of_result result) sheet.new }
{
    check_format(format, options)?;
    print_table(table, format, options, sheet)
}
