// A line that writes: width, bits, radix, base, exponent radix, four flags, point, mark, whether to trim and to truncate, the least and the most digits, two breaks and an exponent's width, which is 1 where the line lacks it; and for an answer a text behind its length, or a refusal. Each call lends 4,096 bytes, just enough, and one byte less.
ghost use Rattle.std.specs.Prelude.{◌<◌, length};

use crate::answer::{self, Told};
use crate::fields::{Fields, Malformed};
use crate::tally::Verdict;
use crate::{format, lent};
use lexical_float::{Float, Width};
use lexical_format::{NumberFormat, Options};
use lexical_util::{Reason, Refusal};
use lexical_write_float::write_float;
use std::io;

const ROOM: usize = 4096;

// A float of either width, any NaN where a line's bits are a NaN's.
#[derive(Clone, Copy)]
enum Value {
    Wide(f64),
    Narrow(f32),
}

fn value_of(fields: &mut Fields) -> Result<Value, Malformed> {
    let width = fields.width()?;
    let bits = fields.bits()?;
    match width {
        Width::Binary64 => Ok(Value::Wide(Float::from_bits(bits))),
        Width::Binary32 => {
            let narrow = u32::try_from(bits).map_err(|_| Malformed)?;
            Ok(Value::Narrow(Float::from_bits(u64::from(narrow))))
        }
    }
}

// What a line asks for.
#[derive(Clone, Copy)]
struct Line {
    value: Value,
    format: NumberFormat,
    options: Options,
}

fn line_of(input: &[u8]) -> Result<Line, Malformed> {
    let mut fields = Fields::of(input);
    let value = value_of(&mut fields)?;
    let format = format::format(&mut fields)?;
    let mut options = format::options(&mut fields)?;
    options.exponent_width = if fields.is_empty() {
        1
    } else {
        fields.count()?
    };
    fields.end()?;
    Ok(Line {
        value,
        format,
        options,
    })
}

fn call(line: &Line, out: &mut [u8]) -> Result<usize, Refusal> {
    match line.value {
        Value::Wide(x) => write_float(x, line.format, line.options, out),
        Value::Narrow(x) => write_float(x, line.format, line.options, out),
    }
}

// Whether a call with so many of the 4,096 bytes gives this answer, and leaves every other byte as it was, those that it was not lent too.
fn agrees(line: &Line, room: usize, wanted: Result<&[u8], Told>) -> bool {
    let mut space = [lent::FILL; ROOM];
    let Some(out) = space.get_mut(..room) else {
        return false;
    };
    let given = call(line, out);
    answer::is_given(given, wanted, &space)
}

// A text: the same with as many bytes as it has, and refused with one byte less.
fn judge_text(line: &Line, text: &[u8]) -> Verdict
    requires { 0 < length text.now }
{
    let n = text.len();
    let short = Reason::NoRoom.at(0);
    for (room, wanted) in [
        (ROOM, Ok(text)),
        (n, Ok(text)),
        (n - 1, Err(Told::from(short))),
    ] {
        if !agrees(line, room, wanted) {
            return Verdict::Differs(room);
        }
    }
    Verdict::Agrees
}

fn judge_refusal(line: &Line, told: Told) -> Verdict {
    if agrees(line, ROOM, Err(told)) {
        Verdict::Agrees
    } else {
        Verdict::Differs(ROOM)
    }
}

pub(crate) fn judge(input: &[u8], answer: &[u8]) -> Result<Verdict, Malformed> {
    let line = line_of(input)?;
    Ok(match answer::of_text(answer)? {
        Ok(text) => judge_text(&line, text),
        Err(told) => judge_refusal(&line, told),
    })
}

// A text, and whether a byte past it has changed.
fn show_text(rt: &impl Print, n: usize, space: &[u8]) -> io::Result<()> {
    let Some((text, behind)) = space.split_at_checked(n) else {
        return Ok(());
    };
    if !text.is_empty() {
        print!(rt; " ")?;
        rt.write_all(text)?;
    }
    if !lent::is_filled(behind) {
        print!(rt; ", and changed a byte past it")?;
    }
    Ok(())
}

// `<answer> <text>` of a call with so many bytes.
fn show_call(rt: &impl Print, line: &Line, room: usize) -> io::Result<()> {
    let mut space = [lent::FILL; ROOM];
    let Some(out) = space.get_mut(..room) else {
        return Ok(());
    };
    let given = call(line, out);
    match given {
        Ok(n) => print!(rt; "{n}")?,
        Err(refusal) => print!(rt; "{refusal}")?,
    }
    show_text(rt, given.unwrap_or(0), &space)
}

// `with <room> bytes <answer> <text>`
pub(crate) fn show(rt: &impl Print, input: &[u8], room: usize) -> io::Result<()> {
    print!(rt; "with {room} bytes ")?;
    match line_of(input) {
        Ok(line) => show_call(rt, &line, room),
        Err(malformed) => print!(rt; "{malformed}"),
    }
}
