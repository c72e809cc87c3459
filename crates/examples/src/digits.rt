// Integer digits, in each radix and width, and in bytes that may be too few.
use crate::print;
use lexical_write_integer::{write_integer, write_mantissa};
use std::{fmt, io};

// A number, and the radix and the width that its digits are asked for in.
#[derive(Clone, Copy)]
pub(crate) struct Asked {
    pub value: u64,
    pub radix: u32,
    pub width: u32,
}

// `<radix> <value>`, and the width where it is not 1.
impl fmt::Display for Asked {
    fn fmt<W: fmt::Write>(&self, f: &mut fmt::Formatter<W>) -> fmt::Result {
        write!(f, "{} {}", self.radix, self.value)?;
        if self.width != 1 {
            write!(f, " width {}", self.width)?;
        }
        Ok(())
    }
}

// A value in a radix and a width: `<radix> <value> <text>`.
fn digits_line(rt: &impl Print, asked: Asked) -> io::Result<()> {
    let mut out = [b'.'; 64];
    let answer = write_integer(asked.value, asked.radix, asked.width, &mut out);
    print!(rt; "{asked} ")?;
    print::answer(rt, answer, &out)?;
    println!(rt; "")
}

// The same in bytes that may be too few, and what they hold after it: `<radix> <value> <text> [<bytes>]`.
fn room_line(rt: &impl Print, asked: Asked, out: &mut [u8]) -> io::Result<()> {
    let answer = write_integer(asked.value, asked.radix, asked.width, out);
    print!(rt; "{asked} ")?;
    print::answer(rt, answer, out)?;
    print::held(rt, out)
}

fn each_radix(rt: &impl Print, value: u64, width: u32) -> io::Result<()> {
    for radix in [2, 4, 8, 10, 16, 32] {
        digits_line(
            rt,
            Asked {
                value,
                radix,
                width,
            },
        )?;
    }
    Ok(())
}

// The last digits of a value, of so many bits each: `last <count> of <bits> bits <value> <text> [<bytes>]`.
fn last_line(
    rt: &impl Print,
    value: u64,
    bits: u32,
    count: usize,
    out: &mut [u8],
) -> io::Result<()> {
    let answer = write_mantissa(value, bits, count, out);
    print!(rt; "last {count} of {bits} bits {value} ")?;
    print::answer(rt, answer, out)?;
    print::held(rt, out)
}

// Bits of a digit, count of digits, and how many bytes are lent: more digits than a u64 has, fewer than the value has, none; then the refusals.
const LAST: [(u32, usize, usize); 11] = [
    (1, 70, 72),
    (2, 33, 33),
    (3, 23, 24),
    (4, 5, 6),
    (5, 14, 14),
    (5, 13, 14),
    (5, 2, 3),
    (5, 0, 1),
    (0, 1, 1),
    (6, 2, 1),
    (5, 2, 1),
];

fn each_last(rt: &impl Print, value: u64) -> io::Result<()> {
    for (bits, count, room) in LAST {
        if let Some(out) = [b'.'; 72].get_mut(..room) {
            last_line(rt, value, bits, count, out)?;
        }
    }
    Ok(())
}

// Bytes to spare, as many as the text has, and fewer.
fn each_room(rt: &impl Print, value: u64, radix: u32, width: u32) -> io::Result<()> {
    let asked = Asked {
        value,
        radix,
        width,
    };
    for room in [6, 4, 3, 2, 1, 0] {
        room_line(rt, asked, &mut [b'.'; 6][..room])?;
    }
    Ok(())
}

// 16 among them, and 2, which comes before it.
fn each_width(rt: &impl Print, value: u64) -> io::Result<()> {
    for width in [0, 2, 3, 4, 5] {
        each_radix(rt, value, width)?;
    }
    digits_line(
        rt,
        Asked {
            value,
            radix: 3,
            width: 0,
        },
    )
}

pub(crate) fn run(rt: &impl Print) -> io::Result<()> {
    for value in [0, 1, 31, 32, 1023, 1024, u64::MAX] {
        each_radix(rt, value, 1)?;
    }
    for (value, radix) in [
        (0, 2),
        (1024, 10),
        (255, 16),
        (1024, 32),
        (5, 0),
        (5, 3),
        (5, 64),
    ] {
        each_room(rt, value, radix, 1)?;
    }
    for value in [0, 31, 1000] {
        each_width(rt, value)?;
    }
    each_room(rt, 5, 10, 3)?;
    each_room(rt, 5, 10, 0)?;
    for value in [0, 1234567, u64::MAX] {
        each_last(rt, value)?;
    }
    Ok(())
}
