// Formats, with what the writer's and the reader's check must answer.
use lexical_format::{NumberFormat, Options, RoundMode, check, check_reading};
use std::io;

// 16/2/10 without flags.
pub(crate) fn format() -> NumberFormat {
    NumberFormat {
        mantissa_radix: 16,
        exponent_base: 2,
        exponent_radix: 10,
        required_exponent_notation: false,
        no_exponent_notation: false,
        required_exponent_sign: false,
        no_exponent_without_fraction: false,
    }
}

// Point ".", mark "^", exponents in width 1, all else absent.
pub(crate) fn options() -> Options {
    Options {
        max_significant_digits: 0,
        min_significant_digits: 0,
        positive_exponent_break: 0,
        negative_exponent_break: 0,
        exponent_width: 1,
        round_mode: RoundMode::Round,
        trim_floats: false,
        exponent: b'^',
        decimal_point: b'.',
    }
}

// b and c and the breaks, or the refusal.
fn print_writing(rt: &impl Print, f: NumberFormat, o: Options) -> io::Result<()> {
    match check(f, o) {
        Err(refusal) => print!(rt; "{refusal}"),
        Ok(passed) => {
            let low = passed.negative_exponent_break.0;
            let high = passed.positive_exponent_break.0;
            print!(rt; "b {} c {} breaks {low} {high}", passed.b, passed.c)
        }
    }
}

fn print_reading(rt: &impl Print, f: NumberFormat, o: Options) -> io::Result<()> {
    match check_reading(f, o) {
        Err(refusal) => print!(rt; "{refusal}"),
        Ok(row) => print!(rt; "b {} c {}", row.b, row.c),
    }
}

// `: write <answer>, read <answer>`
fn answers(rt: &impl Print, f: NumberFormat, o: Options) -> io::Result<()> {
    print!(rt; ": write ")?;
    print_writing(rt, f, o)?;
    print!(rt; ", read ")?;
    print_reading(rt, f, o)?;
    println!(rt; "")
}

fn pair_line(rt: &impl Print, radix: u32, base: u32) -> io::Result<()> {
    let mut f = format();
    f.mantissa_radix = radix;
    f.exponent_base = base;
    print!(rt; "pair {radix}/{base}")?;
    answers(rt, f, options())
}

fn exponent_radix_line(rt: &impl Print, radix: u32) -> io::Result<()> {
    let mut f = format();
    f.exponent_radix = radix;
    print!(rt; "exponent radix {radix}")?;
    answers(rt, f, options())
}

fn bytes_line(rt: &impl Print, radix: u32, point: u8, mark: u8) -> io::Result<()> {
    let mut f = format();
    f.mantissa_radix = radix;
    f.exponent_base = radix;
    let mut o = options();
    o.decimal_point = point;
    o.exponent = mark;
    print!(rt; "radix {radix} point {point} mark {mark}")?;
    answers(rt, f, o)
}

fn notation_line(rt: &impl Print, required: bool, forbidden: bool) -> io::Result<()> {
    let mut f = format();
    f.required_exponent_notation = required;
    f.no_exponent_notation = forbidden;
    print!(rt;
        "required {} forbidden {}",
        u8::from(required),
        u8::from(forbidden)
    )?;
    answers(rt, f, options())
}

fn counts_line(rt: &impl Print, least: u32, most: u32) -> io::Result<()> {
    let mut o = options();
    o.min_significant_digits = least;
    o.max_significant_digits = most;
    print!(rt; "least {least} most {most}")?;
    answers(rt, format(), o)
}

fn breaks_line(rt: &impl Print, low: i32, high: i32) -> io::Result<()> {
    let mut o = options();
    o.negative_exponent_break = low;
    o.positive_exponent_break = high;
    print!(rt; "low {low} high {high}")?;
    answers(rt, format(), o)
}

fn width_line(rt: &impl Print, width: u32) -> io::Result<()> {
    let mut o = options();
    o.exponent_width = width;
    print!(rt; "width {width}")?;
    answers(rt, format(), o)
}

// Radix, point and mark.
const BYTES: [(u32, u8, u8); 20] = [
    (16, 0, b'^'),
    (16, b'.', 0),
    (16, 255, b'^'),
    (16, b'.', 255),
    (16, 32, b'^'),
    (16, 33, b'^'),
    (16, b'.', 126),
    (16, b'.', 127),
    (16, b'^', b'^'),
    (16, b'+', b'^'),
    (16, b'.', b'-'),
    (2, b'.', b'1'),
    (2, b'.', b'2'),
    (8, b'.', b'7'),
    (8, b'8', b'^'),
    (16, b'.', b'F'),
    (16, b'.', b'G'),
    (16, b'.', b'e'),
    (32, b'.', b'V'),
    (32, b'W', b'p'),
];

// The least and the most digits.
const COUNTS: [(u32, u32); 9] = [
    (1200, 0),
    (1201, 0),
    (0, 1200),
    (0, 1201),
    (1200, 1200),
    (5, 4),
    (5, 5),
    (1, 0),
    (u32::MAX, u32::MAX),
];

// The lower and the upper break.
const BREAKS: [(i32, i32); 10] = [
    (-2001, 0),
    (-2000, 0),
    (-1, 0),
    (1, 0),
    (0, 1),
    (0, 2000),
    (0, 2001),
    (0, -1),
    (-6, 10),
    (i32::MIN, i32::MAX),
];

// Formats at their edges.
fn number_formats(rt: &impl Print) -> io::Result<()> {
    for radix in [0, 2, 4, 8, 10, 16, 32, 64, u32::MAX] {
        for base in [0, 2, 4, 8, 10, 16, 32] {
            pair_line(rt, radix, base)?;
        }
    }
    for radix in [0, 1, 2, 3, 4, 8, 10, 16, 32, 36, u32::MAX] {
        exponent_radix_line(rt, radix)?;
    }
    for (radix, point, mark) in BYTES {
        bytes_line(rt, radix, point, mark)?;
    }
    for forbidden in [false, true] {
        for required in [false, true] {
            notation_line(rt, required, forbidden)?;
        }
    }
    Ok(())
}

// Options at their edges.
fn number_options(rt: &impl Print) -> io::Result<()> {
    for (least, most) in COUNTS {
        counts_line(rt, least, most)?;
    }
    for (low, high) in BREAKS {
        breaks_line(rt, low, high)?;
    }
    for width in [0, 1, 4, 5, u32::MAX] {
        width_line(rt, width)?;
    }
    Ok(())
}

// The first of several refusals is the answer.
fn order(rt: &impl Print) -> io::Result<()> {
    let mut f = format();
    let mut o = options();
    o.exponent_width = 0;
    print!(rt; "16")?;
    answers(rt, f, o)?;
    o.positive_exponent_break = -1;
    print!(rt; "6, 16")?;
    answers(rt, f, o)?;
    o.min_significant_digits = 1201;
    print!(rt; "5, 6, 16")?;
    answers(rt, f, o)?;
    f.required_exponent_notation = true;
    f.no_exponent_notation = true;
    print!(rt; "4, 5, 6, 16")?;
    answers(rt, f, o)?;
    o.exponent = b'.';
    print!(rt; "3, 4, 5, 6, 16")?;
    answers(rt, f, o)?;
    f.exponent_radix = 3;
    print!(rt; "2, 3, 4, 5, 6, 16")?;
    answers(rt, f, o)?;
    f.exponent_base = 3;
    print!(rt; "1, 2, 3, 4, 5, 6, 16")?;
    answers(rt, f, o)
}

pub(crate) fn run(rt: &impl Print) -> io::Result<()> {
    number_formats(rt)?;
    number_options(rt)?;
    order(rt)
}
