// A row of a sheet: document 01, "start, space, end, LF". Places are counted from the line's first byte.
ghost use Rattle.std.specs.Prelude.{◌≡◌, ◌+◌, ◌≤◌, length};
ghost use Rattle.lexical_util.specs.Answer.{of_result};
ghost use Rattle.outage_spec.specs.Sheet.{before, fields_window, line_window, row_in};

use lexical_format::{NumberFormat, Options};
use lexical_read_float::read_float;
use lexical_util::{Reason, Refusal};
use outage::find;
use outage_spec::Window;

// The start's refusal, the end's, then 14.
fn fields_window(
    start: &[u8],
    end: &[u8],
    format: NumberFormat,
    options: Options,
) -> Result<Window, Refusal>
    requires { length start.now + length end.now + 1 ≤ 9223372036854775807 }
    ensures { of_result result ≡ fields_window format options start.now end.now }
{
    let x = read_float(start, format, options)?;
    let y = match read_float(end, format, options) {
        Ok(y) => y,
        Err(refusal) => return Err(refusal.reason.at(start.len() + 1 + refusal.place)),
    };
    outage::check_window(Window { start: x, end: y })
}

// A line without its LF. 15: no space, or a second one.
fn line_window(line: &[u8], format: NumberFormat, options: Options) -> Result<Window, Refusal>
    ensures { of_result result ≡ line_window format options line.now }
{
    let space = find(line, b' ');
    if space == line.len() {
        return Err(Reason::WrongSheet.at(0));
    }
    let from = space + 1;
    let end = &line[from..];
    if find(end, b' ') != end.len() {
        return Err(Reason::WrongSheet.at(0));
    }
    fields_window(&line[..space], end, format, options)
}

// The line in front, which ends so many bytes on. 15: no LF.
pub(crate) fn row_in(
    text: &[u8],
    newline: usize,
    format: NumberFormat,
    options: Options,
) -> Result<Window, Refusal>
    requires { newline ≡ length (before 10 text.now) }
    ensures { of_result result ≡ row_in format options text.now }
{
    if newline == text.len() {
        return Err(Reason::WrongSheet.at(0));
    }
    line_window(&text[..newline], format, options)
}
