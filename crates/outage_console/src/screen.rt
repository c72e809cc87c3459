// What each program writes: the bytes that were asked for, or the refusal.
ghost use Rattle.std.specs.Prelude.{◌≡◌, ◌≤◌, length};
ghost use Rattle.lexical_util.specs.Answer.{written, held, of_result};
ghost use Rattle.outage_console.specs.Screen.{printing, reading, rewriting, screen, shown, SameRows};
ghost use Rattle.outage_console.specs.Code.{put_count, put_bytes};
ghost use Rattle.outage_console.specs.Week.{SheetReturns, TableReturns};
ghost use Rattle.outage_spec.specs.Table.{most_windows, table_size};

use crate::argument::sheet_in;
use crate::refusal::put_refusal;
use lexical_read_float::LONGEST_READ;
use lexical_rewrite_spec::TextFormat;
use lexical_util::{Reason, Refusal};
use outage::{LONGEST_TABLE, MOST_WINDOWS};
use outage_sheet::sheet_to_table;
use outage_table::{LONGEST_SHEET, table_to_sheet};

// Bytes that a call has written into those lent, or its refusal.
pub(crate) fn put_answer(out: &mut [u8], answer: Result<usize, Refusal>) -> usize
    requires { 64 ≤ length out.old }
    ensures value { result ≡ put_count (of_result answer) }
    ensures out_after { out.new ≡ put_bytes (of_result answer) out.old }
{
    match answer {
        Ok(count) => count,
        Err(refusal) => put_refusal(out, refusal),
    }
}

// The sheet of a table in 16/2, exponent radix 10, mark "p", exponent required, or the refusal: how many bytes are shown. No sheet is longer than the bytes lent.
pub fn print_sheet(table: &[u8], out: &mut [u8; LONGEST_SHEET]) -> usize
    ensures value { result ≡ length (screen (printing table.now)) }
    ensures out_after { out.new ≡ shown (printing table.now) out.old }
    ensures within { result ≤ length out.new }
    ensures comes_back { TableReturns table.now }
{
    let printed = sheet_in(16, 2, 10);
    let answer = table_to_sheet(table, printed.format, printed.options, out);
    put_answer(out, answer)
}

// No sheet that is read is longer: the most windows, in rows of two of the longest texts that are read, a space and an LF, behind a count line of four bytes.
pub const LONGEST_SHEET_READ: usize = 4 + MOST_WINDOWS * (2 * (LONGEST_READ + 1));

// A sheet's table in bytes enough for any, unless the sheet is longer than any.
fn table_of(sheet: &[u8], format: TextFormat, table: &mut [u8]) -> Result<usize, Refusal>
    requires { table_size most_windows ≤ length table.old }
    ensures result_value { of_result result ≡ written (reading format sheet.now) table.old }
    ensures table_after { table.new ≡ held (reading format sheet.now) table.old }
{
    if sheet.len() > LONGEST_SHEET_READ {
        return Err(Reason::WrongSheet.at(LONGEST_SHEET_READ));
    }
    sheet_to_table(sheet, format.format, format.options, table)
}

// The table of a sheet in a format, or the refusal: how many bytes are shown. No table is longer than the bytes lent.
pub fn read_sheet(sheet: &[u8], format: TextFormat, out: &mut [u8; LONGEST_TABLE]) -> usize
    ensures value { result ≡ length (screen (reading format sheet.now)) }
    ensures out_after { out.new ≡ shown (reading format sheet.now) out.old }
    ensures within { result ≤ length out.new }
{
    let answer = table_of(sheet, format, out);
    put_answer(out, answer)
}

// A sheet in one format, with the same rows in another, or the refusal: how many bytes are shown.
pub fn rewrite_sheet(
    sheet: &[u8],
    from: TextFormat,
    to: TextFormat,
    out: &mut [u8; LONGEST_SHEET],
) -> usize
    ensures value { result ≡ length (screen (rewriting from to sheet.now)) }
    ensures out_after { out.new ≡ shown (rewriting from to sheet.now) out.old }
    ensures within { result ≤ length out.new }
    ensures same_rows { SameRows from to sheet.now }
    ensures never_lost { SheetReturns from sheet.now }
{
    let mut table = [0u8; LONGEST_TABLE];
    match table_of(sheet, from, &mut table) {
        Ok(count) => {
            let answer = table_to_sheet(&table[0..count], to.format, to.options, out);
            put_answer(out, answer)
        }
        Err(refusal) => put_refusal(out, refusal),
    }
}
