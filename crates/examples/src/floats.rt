// Floats at the edges of each width: their parts.

use lexical_exponent::{Magnitude, sci_exp};
use lexical_float::{Float, Parts};
use std::io;

// s, and the parts: `s <s>, <sign><mantissa> * 2^<exponent>`.
fn finite_line(rt: &impl Print, negative: bool, value: Magnitude) -> io::Result<()> {
    let sign = if negative { "-" } else { "" };
    println!(rt;
        "s {}, {sign}{} * 2^{}",
        sci_exp(value).0,
        value.mantissa,
        value.exponent.0
    )
}

// `<width> <bits>: s <s>, <sign><mantissa> * 2^<exponent>`, or `<width> <bits>: special`.
fn float_line<F: Float>(rt: &impl Print, bits: u64) -> io::Result<()> {
    print!(rt; "{} {bits:x}: ", F::WIDTH)?;
    match F::from_bits(bits).parts() {
        Parts::Special => println!(rt; "special"),
        Parts::Finite(negative, value) => finite_line(rt, negative, value),
    }
}

// 0, least denormal, largest denormal, least normal, 1, largest, infinities, NaN, -0, -1, and some between: here and below.
const WIDE: [u64; 17] = [
    0,
    1,
    0x000f_ffff_ffff_ffff,
    0x0010_0000_0000_0000,
    0x3ff0_0000_0000_0000,
    0x3ff8_0000_0000_0000,
    0x400f_ffff_ffff_ffff,
    0x7fef_ffff_ffff_ffff,
    0x7ff0_0000_0000_0000,
    0xfff0_0000_0000_0000,
    0x7ff0_0000_0000_0001,
    0x7ff8_0000_0000_0000,
    0xffff_ffff_ffff_ffff,
    0x8000_0000_0000_0000,
    0x8000_0000_0000_0001,
    0xbff0_0000_0000_0000,
    0xffef_ffff_ffff_ffff,
];

const NARROW: [u32; 17] = [
    0,
    1,
    0x007f_ffff,
    0x0080_0000,
    0x3f80_0000,
    0x3fc0_0000,
    0x407f_ffff,
    0x7f7f_ffff,
    0x7f80_0000,
    0xff80_0000,
    0x7f80_0001,
    0x7fc0_0000,
    0xffff_ffff,
    0x8000_0000,
    0x8000_0001,
    0xbf80_0000,
    0xff7f_ffff,
];

pub(crate) fn run(rt: &impl Print) -> io::Result<()> {
    for bits in WIDE {
        float_line::<f64>(rt, bits)?;
    }
    for bits in NARROW {
        float_line::<f32>(rt, u64::from(bits))?;
    }
    Ok(())
}
