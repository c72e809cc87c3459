// A row of the sheet: start, space, end, LF.
ghost use Rattle.std.specs.Prelude.{◌≡◌, ◌∷◌, [], ◌++◌, ◌+◌, ◌≤◌, ◌*◌, length};
ghost use Rattle.lexical_write_integer_spec.specs.Digits.{numeral};
ghost use Rattle.lexical_buffer.specs.Put.{Puts};
ghost use Rattle.outage_table.specs.Text.{text_of, row_of, HasText, HasTexts};
ghost use Rattle.lexical_write_float_spec.specs.Write.{longest_text};

use lexical_buffer::{put_byte, put_number};
use lexical_format::{NumberFormat, Options};
use lexical_write_float::{LONGEST_TEXT, write_float};
use outage_spec::Window;

// The length of a float's text. It is written into scratch bytes, which have room for every text.
fn text_length(
    x: f64,
    format: NumberFormat,
    options: Options,
    scratch: &mut [u8; LONGEST_TEXT],
) -> usize
    requires { HasText format options x }
    ensures { (result ≡ length (text_of format options x)) × (result ≤ longest_text) }
{
    match write_float(x, format, options, scratch) {
        Ok(count) => count,
        Err(_) => 0,
    }
}

// The longest row: two texts, a space and an LF.
pub(crate) const LONGEST_ROW: usize = 2 * (LONGEST_TEXT + 1);

// The length of a row.
pub(crate) fn row_length(
    window: Window,
    format: NumberFormat,
    options: Options,
    scratch: &mut [u8; LONGEST_TEXT],
) -> usize
    requires { HasTexts format options window }
    ensures { (result ≡ length (row_of format options window)) × (result ≤ 2 * (longest_text + 1)) }
{
    let start = text_length(window.start, format, options, scratch);
    let end = text_length(window.end, format, options, scratch);
    start + end + 2
}

// A float's text from a place on.
fn put_text(sheet: &mut [u8], at: usize, x: f64, format: NumberFormat, options: Options) -> usize
    requires { HasText format options x × (at + length (text_of format options x) ≤ length sheet.old) }
    ensures { Puts sheet.old at (text_of format options x) result sheet.new }
{
    match write_float(x, format, options, &mut sheet[at..]) {
        Ok(count) => at + count,
        Err(_) => at,
    }
}

pub(crate) fn put_row(
    sheet: &mut [u8],
    at: usize,
    window: Window,
    format: NumberFormat,
    options: Options,
) -> usize
    requires { HasTexts format options window × (at + length (row_of format options window) ≤ length sheet.old) }
    ensures { Puts sheet.old at (row_of format options window) result sheet.new }
{
    let space = put_text(sheet, at, window.start, format, options);
    let end = put_byte(sheet, space, b' ');
    let newline = put_text(sheet, end, window.end, format, options);
    put_byte(sheet, newline, b'\n')
}

// The count line: n in radix 10, and LF.
pub(crate) fn put_count(sheet: &mut [u8], count: usize) -> usize
    requires { length (numeral 10 1 count) + 1 ≤ length sheet.old }
    ensures { Puts sheet.old 0 (numeral 10 1 count ++ (10 ∷ [])) result sheet.new }
{
    let digits = put_number(sheet, 0, count as u64, 10, 1);
    put_byte(sheet, digits, b'\n')
}
