// The order of floats by value: each of twelve against each of them.
use lexical_float::{Float, less_f64};
use std::io;

// A NaN, -infinity, the least float, -1, -2^-1073, -2^-1074, -0, 0, 2^-1074, 2^-1073, 1, infinity.
const FLOATS: [u64; 12] = [
    0x7ff8_0000_0000_0000,
    0xfff0_0000_0000_0000,
    0xffef_ffff_ffff_ffff,
    0xbff0_0000_0000_0000,
    0x8000_0000_0000_0002,
    0x8000_0000_0000_0001,
    0x8000_0000_0000_0000,
    0,
    1,
    2,
    0x3ff0_0000_0000_0000,
    0x7ff0_0000_0000_0000,
];

// `<bits> is below <twelve answers, 1 or 0>`
fn less_line(rt: &impl Print, bits: u64) -> io::Result<()> {
    print!(rt; "{bits:x} is below ")?;
    let x: f64 = Float::from_bits(bits);
    for other in FLOATS {
        let less = less_f64(x, Float::from_bits(other));
        print!(rt; "{}", u8::from(less))?;
    }
    println!(rt; "")
}

pub(crate) fn run(rt: &impl Print) -> io::Result<()> {
    for bits in FLOATS {
        less_line(rt, bits)?;
    }
    Ok(())
}
