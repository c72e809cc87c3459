// Each float through the week: Tuesday's text, Wednesday's and Thursday's stations as a chain, and the bits that Friday reads.

use crate::{formats, print};
use lexical_float::Float;
use lexical_read_float::read_float;
use lexical_rewrite::{RECORD_SIZE, chain_float};
use lexical_write_float::{LONGEST_TEXT, write_float};
use std::io;

fn print_float<F: Float>(rt: &impl Print, x: F) -> io::Result<()> {
    if x.is_nan() {
        return print!(rt; "NaN");
    }
    print!(rt; "{:x}", x.to_bits())
}

// Friday: the last text is read.
fn friday<F: Float>(rt: &impl Print, text: &[u8]) -> io::Result<()> {
    let thursday = formats::thursday();
    match read_float::<F>(text, thursday.format, thursday.options) {
        Ok(x) => print_float(rt, x),
        Err(refusal) => print!(rt; "{refusal}"),
    }
}

// Wednesday and Thursday: two stations.
fn stations<F: Float>(rt: &impl Print, text: &[u8]) -> io::Result<()> {
    let records = formats::RECORDS;
    let mut out = [0; LONGEST_TEXT];
    let answer = chain_float::<F>(
        text,
        formats::tuesday(),
        formats::wednesday(),
        &records[..RECORD_SIZE],
        &mut out,
    );
    print::chained(rt, answer, &out)?;
    print!(rt; " ")?;
    match answer {
        Ok(n) => friday::<F>(rt, print::front(&out, n)),
        Err(_) => Ok(()),
    }
}

// Tuesday: the float becomes a text. Any NaN where the bits are a NaN's; none of the list are.
fn tuesday<F: Float>(rt: &impl Print, bits: u64) -> io::Result<()> {
    let tuesday = formats::tuesday();
    let mut out = [0; LONGEST_TEXT];
    let x = F::from_bits(bits);
    match write_float(x, tuesday.format, tuesday.options, &mut out) {
        Ok(n) => {
            let text = print::front(&out, n);
            rt.write_all(text)?;
            print!(rt; " ")?;
            stations::<F>(rt, text)
        }
        Err(refusal) => print!(rt; "{refusal} "),
    }
}

// `<width> <bits>: <Tuesday's text> <Thursday's> <the bits of Friday's float>`
fn week<F: Float>(rt: &impl Print, bits: u64) -> io::Result<()> {
    print!(rt; "{} {bits:x}: ", F::WIDTH)?;
    tuesday::<F>(rt, bits)?;
    println!(rt; "")
}

// A text that no float is written as, from Wednesday on.
fn sent<F: Float>(rt: &impl Print, text: &str) -> io::Result<()> {
    print!(rt; "{} {text}: ", F::WIDTH)?;
    stations::<F>(rt, text.as_bytes())?;
    println!(rt; "")
}

const WIDE: [u64; 18] = [
    0,
    1,
    2,
    0x000f_ffff_ffff_ffff,
    0x0010_0000_0000_0000,
    0x3fb9_9999_9999_999a,
    0x3fd5_5555_5555_5555,
    0x3ff0_0000_0000_0000,
    0x3ff0_0000_0000_0001,
    0x3ff8_0000_0000_0000,
    0x4009_21fb_54442d18,
    0x4090_0000_0000_0000,
    0x41d9_5555_5560_0000,
    0x4330_0000_0000_0000,
    0x433f_ffff_ffff_ffff,
    0x43e0_0000_0000_0000,
    0x7fe0_0000_0000_0000,
    0x7fef_ffff_ffff_ffff,
];

const NARROW: [u32; 12] = [
    0,
    1,
    2,
    0x007f_ffff,
    0x0080_0000,
    0x3dcc_cccd,
    0x3eaa_aaab,
    0x3f80_0000,
    0x3f80_0001,
    0x4490_0000,
    0x7f00_0000,
    0x7f7f_ffff,
];

// Each float, and the one with its sign bit set.
fn floats(rt: &impl Print) -> io::Result<()> {
    for bits in WIDE {
        week::<f64>(rt, bits)?;
        week::<f64>(rt, bits | 0x8000_0000_0000_0000)?;
    }
    for bits in NARROW {
        week::<f32>(rt, u64::from(bits))?;
        week::<f32>(rt, u64::from(bits | 0x8000_0000))?;
    }
    Ok(())
}

// A "never" end that a station wrote as the largest float with a digit more, and the like with a sign: every later text is that float's.
fn nevers(rt: &impl Print) -> io::Result<()> {
    sent::<f64>(rt, "F.FFFFFFFFFFFF8Fp1020")?;
    sent::<f64>(rt, "-F.FFFFFFFFFFFF8Fp1020")?;
    sent::<f32>(rt, "F.FFFFF7p124")?;
    sent::<f32>(rt, "-F.FFFFF7p124")
}

// A magnitude of half the least float rounds to zero, which keeps its sign; one of three quarters does not.
fn vanishing(rt: &impl Print) -> io::Result<()> {
    for text in ["1p-1075", "-1p-1075", "-3p-1076"] {
        sent::<f64>(rt, text)?;
    }
    for text in ["1p-150", "-1p-150", "-3p-151"] {
        sent::<f32>(rt, text)?;
    }
    Ok(())
}

pub(crate) fn run(rt: &impl Print) -> io::Result<()> {
    floats(rt)?;
    nevers(rt)?;
    vanishing(rt)
}
