// A line whose call takes bytes and writes bytes: it turns a table into a sheet or back, or packs a table or unpacks one. A field says how many bytes are lent, the last one has the bytes taken. For an answer a length and the bytes, or a refusal. A table's bytes are any, so those lent hold a byte more than once: every one past the answer is looked at.
use crate::answer::{self, Told};
use crate::fields::{Fields, Malformed};
use crate::tally::Verdict;
use crate::{format, hex, lent, numbers, print};
use lexical_format::{NumberFormat, Options};
use lexical_util::Refusal;
use outage_planes::{pack, unpack};
use outage_sheet::sheet_to_table;
use outage_table::table_to_sheet;
use std::io;

// A line's bytes, and the bytes lent: more are malformed.
const ROOM: usize = 32768;

fn space() -> [u8; ROOM] {
    [lent::FILL; ROOM]
}

// What a line asks for.
#[derive(Clone, Copy)]
enum Call {
    // `T`, and the sixteen fields of a format from radix to width.
    ToSheet(NumberFormat, Options),
    // `S`, radix, base, exponent radix, point and mark.
    ToTable(NumberFormat, Options),
    // `P`
    Pack,
    // `U`
    Unpack,
}

fn call_of(fields: &mut Fields) -> Result<Call, Malformed> {
    match fields.word()? {
        b"T" => {
            let format = format::format(fields)?;
            let mut options = format::options(fields)?;
            options.exponent_width = fields.count()?;
            Ok(Call::ToSheet(format, options))
        }
        b"S" => {
            let format = format::radices(fields)?;
            let options = format::bytes(fields)?;
            Ok(Call::ToTable(format, options))
        }
        b"P" => Ok(Call::Pack),
        b"U" => Ok(Call::Unpack),
        _ => Err(Malformed),
    }
}

fn make_call(call: Call, bytes: &[u8], out: &mut [u8]) -> Result<usize, Refusal> {
    match call {
        Call::ToSheet(format, options) => table_to_sheet(bytes, format, options, out),
        Call::ToTable(format, options) => sheet_to_table(bytes, format, options, out),
        Call::Pack => pack(bytes, out),
        Call::Unpack => unpack(bytes, out),
    }
}

// What the call answers to a line's bytes, with as many bytes lent as it says.
fn given(input: &[u8], out: &mut [u8]) -> Result<Result<usize, Refusal>, Malformed> {
    let mut space = space();
    let mut fields = Fields::of(input);
    let asked = call_of(&mut fields)?;
    let room = fields.count()? as usize;
    let bytes = hex::bytes(fields.word()?, &mut space)?;
    fields.end()?;
    let buffer = out.get_mut(..room).ok_or(Malformed)?;
    Ok(make_call(asked, bytes, buffer))
}

// `length bytes`, as many bytes as the length says, where one that is no number counts as 0; or a refusal.
fn answer_of<'a>(s: &[u8], space: &'a mut [u8]) -> Result<Result<&'a [u8], Told>, Malformed> {
    if let Some(told) = answer::refusal_in(s)? {
        return Ok(Err(told));
    }
    let mut fields = Fields::of(s);
    let length = numbers::decimal(fields.word()?).unwrap_or(0);
    let bytes = hex::bytes(fields.word()?, space)?;
    fields.end()?;
    if length != bytes.len() as u64 {
        return Err(Malformed);
    }
    Ok(Ok(bytes))
}

pub(crate) fn judge(input: &[u8], answer: &[u8]) -> Result<Verdict, Malformed> {
    let mut bytes = space();
    let wanted = answer_of(answer, &mut bytes)?;
    let mut out = space();
    let given = given(input, &mut out)?;
    Ok(answer::judge(given, wanted, &out))
}

pub(crate) fn show(rt: &impl Print, input: &[u8]) -> io::Result<()> {
    print::answer(rt, given(input, &mut space()))
}
