// A line of the digits call: `D`, value, radix, width, and how many bytes are lent; and for an answer a text behind its length, or a refusal.
use crate::fields::{Fields, Malformed};
use crate::tally::Verdict;
use crate::{answer, lent, print};
use lexical_util::Refusal;
use lexical_write_integer::write_integer;
use std::io;

// No number has more digits. More bytes lent are malformed.
const ROOM: usize = 64;

// What the call answers, with as many bytes lent as the line says.
fn given(input: &[u8], out: &mut [u8]) -> Result<Result<usize, Refusal>, Malformed> {
    let mut fields = Fields::of(input);
    fields.word()?;
    let value = fields.number()?;
    let radix = fields.count()?;
    let width = fields.count()?;
    let room = fields.count()? as usize;
    fields.end()?;
    let buffer = out.get_mut(..room).ok_or(Malformed)?;
    Ok(write_integer(value, radix, width, buffer))
}

pub(crate) fn judge(input: &[u8], answer: &[u8]) -> Result<Verdict, Malformed> {
    let wanted = answer::of_text(answer)?;
    let mut out = [lent::FILL; ROOM];
    let given = given(input, &mut out)?;
    Ok(answer::judge(given, wanted, &out))
}

pub(crate) fn show(rt: &impl Print, input: &[u8]) -> io::Result<()> {
    print::answer(rt, given(input, &mut [lent::FILL; ROOM]))
}
