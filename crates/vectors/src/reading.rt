// A line that reads: `R`, width, text, radix, base, exponent radix, point and mark; and for an answer a float's bits in hexadecimal, or a refusal.
use crate::answer::{self, Told};
use crate::fields::{Fields, Malformed};
use crate::tally::Verdict;
use crate::{format, hex, numbers, print};
use lexical_float::{Float, Width};
use lexical_format::{NumberFormat, Options};
use lexical_read_float::read_float;
use lexical_util::Refusal;
use std::{fmt, io};

// A line's text: a longer one is malformed.
const ROOM: usize = 8192;

fn room() -> [u8; ROOM] {
    [0; ROOM]
}

// A float's bits, as a list has them. A NaN, which no line has, has none.
#[derive(Clone, Copy, Debug, PartialEq, Eq)]
struct Bits(Option<u64>);

impl fmt::Display for Bits {
    fn fmt<W: fmt::Write>(&self, f: &mut fmt::Formatter<W>) -> fmt::Result {
        match self.0 {
            Some(bits) => write!(f, "{bits:x}"),
            None => write!(f, "a NaN"),
        }
    }
}

fn read<F: Float>(text: &[u8], format: NumberFormat, options: Options) -> Result<Bits, Refusal> {
    let x: F = read_float(text, format, options)?;
    if x.is_nan() {
        return Ok(Bits(None));
    }
    Ok(Bits(Some(x.to_bits())))
}

// What the call answers to a line's text.
fn given(input: &[u8]) -> Result<Result<Bits, Refusal>, Malformed> {
    let mut fields = Fields::of(input);
    fields.word()?;
    let width = fields.width()?;
    let mut space = room();
    let text = hex::bytes(fields.word()?, &mut space)?;
    let format = format::radices(&mut fields)?;
    let options = format::bytes(&mut fields)?;
    fields.end()?;
    Ok(match width {
        Width::Binary64 => read::<f64>(text, format, options),
        Width::Binary32 => read::<f32>(text, format, options),
    })
}

fn answer_of(s: &[u8]) -> Result<Result<Bits, Told>, Malformed> {
    if let Some(told) = answer::refusal_in(s)? {
        return Ok(Err(told));
    }
    let bits = numbers::hexadecimal(s).ok_or(Malformed)?;
    Ok(Ok(Bits(Some(bits))))
}

pub(crate) fn judge(input: &[u8], answer: &[u8]) -> Result<Verdict, Malformed> {
    let wanted = answer_of(answer)?;
    let given = given(input)?;
    if given.map_err(Told::from) == wanted {
        return Ok(Verdict::Agrees);
    }
    Ok(Verdict::Differs(0))
}

pub(crate) fn show(rt: &impl Print, input: &[u8]) -> io::Result<()> {
    print::answer(rt, given(input))
}
