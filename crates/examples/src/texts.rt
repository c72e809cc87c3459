// Floats' texts and every refusal of the writing calls, at both widths.
ghost use Rattle.std.specs.Prelude.{◌<◌, ◌≤◌};

use crate::{formats, print};
use lexical_float::Float;
use lexical_format::{NumberFormat, Options, RoundMode};
use lexical_util::Refusal;
use lexical_write_float::{LONGEST_TEXT, write_float};
use std::{fmt, io};

// Bytes lent where nothing else is said, and what they hold before a call; no text has this byte.
const ROOM: usize = 4096;

const FILL: u8 = 7;

fn print_flag(rt: &impl Print, name: &str, is_set: bool) -> io::Result<()> {
    if is_set {
        print!(rt; "{name}")?;
    }
    Ok(())
}

fn print_unless<T: Copy + PartialEq + fmt::Display>(
    rt: &impl Print,
    name: &str,
    value: T,
    usual: T,
) -> io::Result<()> {
    if value != usual {
        print!(rt; "{name}{value}")?;
    }
    Ok(())
}

// ` <radix>/<base>/<exponent radix>`, and the flags that are set.
fn print_format(rt: &impl Print, f: NumberFormat) -> io::Result<()> {
    print!(rt;
        " {}/{}/{}",
        f.mantissa_radix, f.exponent_base, f.exponent_radix
    )?;
    print_flag(rt, " required", f.required_exponent_notation)?;
    print_flag(rt, " forbidden", f.no_exponent_notation)?;
    print_flag(rt, " sign", f.required_exponent_sign)?;
    print_flag(rt, " fraction", f.no_exponent_without_fraction)
}

// The options that are not the usual ones.
fn print_options(rt: &impl Print, o: Options) -> io::Result<()> {
    print_unless(rt, " point ", o.decimal_point, b'.')?;
    print_unless(rt, " mark ", o.exponent, b'^')?;
    print_flag(rt, " trim", o.trim_floats)?;
    let mode = o.round_mode;
    print_flag(rt, " truncate", matches!(mode, RoundMode::Truncate))?;
    print_unless(rt, " least ", o.min_significant_digits, 0)?;
    print_unless(rt, " most ", o.max_significant_digits, 0)?;
    print_unless(rt, " low ", o.negative_exponent_break, 0)?;
    print_unless(rt, " high ", o.positive_exponent_break, 0)?;
    print_unless(rt, " width ", o.exponent_width, 1)
}

// A text, or its length alone where it would fill more than a line.
fn print_text(rt: &impl Print, n: usize, out: &[u8]) -> io::Result<()> {
    if n > 100 {
        return print!(rt; "{n} bytes");
    }
    print::first(rt, out, n)
}

// How many bytes from a place on are as they were. A `for`, since `skip`, `filter` and `count` take three times the instructions.
fn kept(out: &[u8], from: usize) -> usize {
    let mut count = 0;
    for byte in out.get(from..).unwrap_or(&[]) {
        if *byte == FILL {
            count += 1;
        }
    }
    count
}

// `<answer>, <count> kept`, which counts the bytes that were not lent too.
fn print_answer(rt: &impl Print, written: Result<usize, Refusal>, out: &[u8]) -> io::Result<()> {
    match written {
        Ok(n) => print_text(rt, n, out)?,
        Err(refusal) => print!(rt; "{refusal}")?,
    }
    println!(rt; ", {} kept", kept(out, written.unwrap_or(0)))
}

// `<width> <bits> <format><options> in <room>: <answer>, <count> kept`
fn line<F: Float>(
    rt: &impl Print,
    bits: u64,
    f: NumberFormat,
    o: Options,
    room: usize,
) -> io::Result<()>
    requires room { room ≤ 4096 }
{
    let mut out = [FILL; ROOM];
    let written = write_float(F::from_bits(bits), f, o, &mut out[..room]);
    print!(rt; "{} {bits:x}", F::WIDTH)?;
    print_format(rt, f)?;
    print_options(rt, o)?;
    print!(rt; " in {room}: ")?;
    print_answer(rt, written, &out)
}

fn wide(rt: &impl Print, bits: u64, f: NumberFormat, o: Options) -> io::Result<()> {
    line::<f64>(rt, bits, f, o, ROOM)
}

fn narrow(rt: &impl Print, bits: u32, f: NumberFormat, o: Options) -> io::Result<()> {
    line::<f32>(rt, u64::from(bits), f, o, ROOM)
}

// The sign bits of some floats: set in each, or in none.
#[derive(Clone, Copy)]
struct Sign {
    wide: u64,
    narrow: u32,
}

const PLUS: Sign = Sign { wide: 0, narrow: 0 };

const MINUS: Sign = Sign {
    wide: 0x8000_0000_0000_0000,
    narrow: 0x8000_0000,
};

// 1.5, or -1.5, at both widths.
fn both(rt: &impl Print, sign: Sign, f: NumberFormat, o: Options) -> io::Result<()> {
    wide(rt, 0x3ff8_0000_0000_0000 | sign.wide, f, o)?;
    narrow(rt, 0x3fc0_0000 | sign.narrow, f, o)
}

// Zero and minus zero at both widths.
fn zeros(rt: &impl Print, f: NumberFormat, o: Options) -> io::Result<()> {
    for sign in [PLUS, MINUS] {
        wide(rt, sign.wide, f, o)?;
        narrow(rt, sign.narrow, f, o)?;
    }
    Ok(())
}

fn format(radix: u32, base: u32, exponent_radix: u32) -> NumberFormat {
    NumberFormat {
        mantissa_radix: radix,
        exponent_base: base,
        exponent_radix,
        ..formats::format()
    }
}

fn limited(most: u32, mode: RoundMode) -> Options {
    Options {
        max_significant_digits: most,
        round_mode: mode,
        ..formats::options()
    }
}

// Document 01's own examples, and the same with the sign bit set.
fn worked(rt: &impl Print, sign: Sign) -> io::Result<()> {
    let usual = formats::options();
    let mut trim = usual;
    trim.trim_floats = true;
    let mut trim_five = trim;
    trim_five.min_significant_digits = 5;
    let mut five = usual;
    five.min_significant_digits = 5;
    let mut with_sign = format(16, 16, 16);
    with_sign.required_exponent_sign = true;
    let cases = [
        (0x3fa0_0000_0000_0000, format(2, 2, 2), usual),
        (0x3f90_0000_0000_0000, format(2, 2, 2), usual),
        (0x4080_0000_0000_0000, format(16, 16, 16), usual),
        (0x4090_0000_0000_0000, format(16, 16, 16), usual),
        (0x4090_0000_0000_0000, format(16, 16, 16), trim),
        (0x4090_0000_0000_0000, with_sign, usual),
        (0x4090_0000_0000_0000, format(16, 2, 10), usual),
        (0x3f90_0000_0000_0000, format(16, 2, 10), usual),
        (0x4090_0000_0000_0000, format(16, 4, 10), usual),
        (1, format(32, 32, 10), usual),
        (0x4080_0000_0000_0000, format(32, 32, 10), trim),
        (0x4020_0000_0000_0000, format(2, 2, 2), trim_five),
        (0x4020_0000_0000_0000, format(2, 2, 2), five),
    ];
    for (bits, f, o) in cases {
        wide(rt, bits | sign.wide, f, o)?;
    }
    narrow(rt, 0x7f7f_ffff | sign.narrow, format(16, 2, 10), usual)
}

// Both zeros in the scientific and in the positive layout.
fn each_zero(rt: &impl Print, f: NumberFormat) -> io::Result<()> {
    for (least, trim) in [(0, false), (5, false), (5, true), (0, true)] {
        let mut o = formats::options();
        o.min_significant_digits = least;
        o.trim_floats = trim;
        zeros(rt, f, o)?;
    }
    Ok(())
}

fn zero(rt: &impl Print) -> io::Result<()> {
    let mut f = format(2, 2, 2);
    each_zero(rt, f)?;
    f.required_exponent_notation = true;
    each_zero(rt, f)?;
    f.no_exponent_without_fraction = true;
    each_zero(rt, f)
}

// 1.5; 1.75 and 1.25, whose ties go up and down, to the even one; the largest floats, which become 2^1024 and 2^128. With the sign bit set Truncate goes towards zero and not down.
fn limits(rt: &impl Print, sign: Sign) -> io::Result<()> {
    let hex = format(16, 16, 16);
    let binary = format(2, 2, 2);
    let mixed = format(16, 2, 10);
    let one = limited(1, RoundMode::Round);
    let two = limited(2, RoundMode::Round);
    let cut = limited(1, RoundMode::Truncate);
    both(rt, sign, hex, one)?;
    both(rt, sign, hex, cut)?;
    wide(rt, 0x3ffc_0000_0000_0000 | sign.wide, binary, two)?;
    narrow(rt, 0x3fe0_0000 | sign.narrow, binary, two)?;
    wide(rt, 0x3ff4_0000_0000_0000 | sign.wide, binary, two)?;
    narrow(rt, 0x3fa0_0000 | sign.narrow, binary, two)?;
    wide(rt, 0x7fef_ffff_ffff_ffff | sign.wide, mixed, one)?;
    wide(rt, 0x7fef_ffff_ffff_ffff | sign.wide, mixed, cut)?;
    narrow(rt, 0x7f7f_ffff | sign.narrow, mixed, one)
}

// Zero and minus zero, which no limit changes.
fn limited_zeros(rt: &impl Print) -> io::Result<()> {
    for mode in [RoundMode::Round, RoundMode::Truncate] {
        zeros(rt, format(16, 16, 16), limited(1, mode))?;
    }
    Ok(())
}

// 1,024 and 2^-6, whose exponents have one digit, and the least float, whose exponent has more; an exponent of zero; and a text without one.
fn width(rt: &impl Print, width: u32) -> io::Result<()> {
    let mut o = formats::options();
    o.exponent_width = width;
    let mut f = format(16, 2, 10);
    for bits in [0x4090_0000_0000_0000, 0x3f90_0000_0000_0000, 1] {
        wide(rt, bits, f, o)?;
    }
    both(rt, PLUS, f, o)?;
    f.required_exponent_notation = true;
    f.required_exponent_sign = true;
    zeros(rt, f, o)
}

// 2^-1074 in radix 2 without an exponent and with 1,200 digits, and with the sign bit set, which no other text passes; and bytes too few for each.
fn longest(rt: &impl Print) -> io::Result<()> {
    let mut f = format(2, 2, 2);
    f.no_exponent_notation = true;
    let mut o = formats::options();
    o.min_significant_digits = 1200;
    for room in [ROOM, LONGEST_TEXT - 1, LONGEST_TEXT - 2] {
        line::<f64>(rt, 1, f, o, room)?;
    }
    for room in [ROOM, LONGEST_TEXT, LONGEST_TEXT - 1] {
        line::<f64>(rt, 1 | MINUS.wide, f, o, room)?;
    }
    Ok(())
}

// Points and marks.
const BYTES: [(u8, u8); 7] = [
    (b'^', b'^'),
    (b'+', b'^'),
    (b'.', b'-'),
    (b'F', b'^'),
    (b'G', b'^'),
    (32, b'^'),
    (b'.', 127),
];

// 1 to 4.
fn refused_formats(rt: &impl Print) -> io::Result<()> {
    let usual = formats::options();
    both(rt, PLUS, format(16, 8, 10), usual)?;
    both(rt, PLUS, format(16, 2, 3), usual)?;
    for (point, mark) in BYTES {
        let mut o = usual;
        o.decimal_point = point;
        o.exponent = mark;
        both(rt, PLUS, formats::format(), o)?;
    }
    let mut f = formats::format();
    f.required_exponent_notation = true;
    f.no_exponent_notation = true;
    both(rt, PLUS, f, usual)
}

// 5 and 6, and what just passes: the least and the most digits, then the breaks.
fn refused_options(rt: &impl Print) -> io::Result<()> {
    for (least, most) in [(1200, 0), (1201, 0), (0, 1201), (5, 4), (5, 5)] {
        let mut o = formats::options();
        o.min_significant_digits = least;
        o.max_significant_digits = most;
        both(rt, PLUS, formats::format(), o)?;
    }
    for (low, high) in [
        (1, 0),
        (-2000, 0),
        (-2001, 0),
        (0, -1),
        (0, 2000),
        (0, 2001),
    ] {
        let mut o = formats::options();
        o.negative_exponent_break = low;
        o.positive_exponent_break = high;
        both(rt, PLUS, formats::format(), o)?;
    }
    Ok(())
}

// 7: infinities and NaNs, and not -1.5, the largest float or the least one.
fn refused_floats(rt: &impl Print) -> io::Result<()> {
    let f = formats::format();
    let o = formats::options();
    both(rt, MINUS, f, o)?;
    for bits in [
        0x7fef_ffff_ffff_ffff,
        0x7ff0_0000_0000_0000,
        0x7ff8_0000_0000_0000,
    ] {
        wide(rt, bits, f, o)?;
        wide(rt, bits | MINUS.wide, f, o)?;
    }
    for bits in [0x7f7f_ffff, 0x7f80_0000, 0x7fc0_0000] {
        narrow(rt, bits, f, o)?;
        narrow(rt, bits | MINUS.narrow, f, o)?;
    }
    Ok(())
}

// 8: bytes enough for a text with its sign, one too few, one, and none.
fn rooms<F: Float>(rt: &impl Print, bits: u64, enough: usize) -> io::Result<()>
    requires enough { (0 < enough) × (enough ≤ 4096) }
{
    let f = format(16, 16, 16);
    let o = formats::options();
    line::<F>(rt, bits, f, o, enough)?;
    line::<F>(rt, bits, f, o, enough - 1)?;
    line::<F>(rt, bits, f, o, 1)?;
    line::<F>(rt, bits, f, o, 0)
}

// 0.5, -0.5 and -0.
fn refused_rooms(rt: &impl Print) -> io::Result<()> {
    rooms::<f64>(rt, 0x3fe0_0000_0000_0000, 3)?;
    rooms::<f64>(rt, 0xbfe0_0000_0000_0000, 4)?;
    rooms::<f64>(rt, 0x8000_0000_0000_0000, 4)?;
    rooms::<f32>(rt, 0x3f00_0000, 3)?;
    rooms::<f32>(rt, 0xbf00_0000, 4)?;
    rooms::<f32>(rt, 0x8000_0000, 4)
}

// The negative infinity in no bytes, under a format with one fault more each time.
fn refused_first(rt: &impl Print) -> io::Result<()> {
    let mut f = formats::format();
    let mut o = formats::options();
    nowhere(rt, f, o)?;
    o.exponent_width = 0;
    nowhere(rt, f, o)?;
    o.positive_exponent_break = -1;
    nowhere(rt, f, o)?;
    o.min_significant_digits = 1201;
    nowhere(rt, f, o)?;
    f.required_exponent_notation = true;
    f.no_exponent_notation = true;
    nowhere(rt, f, o)?;
    o.exponent = b'.';
    nowhere(rt, f, o)?;
    f.exponent_radix = 3;
    nowhere(rt, f, o)?;
    f.exponent_base = 3;
    nowhere(rt, f, o)
}

fn nowhere(rt: &impl Print, f: NumberFormat, o: Options) -> io::Result<()> {
    line::<f64>(rt, 0xfff0_0000_0000_0000, f, o, 0)?;
    line::<f32>(rt, 0xff80_0000, f, o, 0)
}

pub(crate) fn run(rt: &impl Print) -> io::Result<()> {
    worked(rt, PLUS)?;
    worked(rt, MINUS)?;
    zero(rt)?;
    limits(rt, PLUS)?;
    limits(rt, MINUS)?;
    limited_zeros(rt)?;
    for count in [0, 1, 2, 3, 4, 5] {
        width(rt, count)?;
    }
    longest(rt)?;
    refused_formats(rt)?;
    refused_options(rt)?;
    refused_floats(rt)?;
    refused_rooms(rt)?;
    refused_first(rt)
}
