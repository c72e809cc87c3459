// The three exponents: s scaled to a digit's place and to powers of the base, for each pair's bits; and what else the scaling functions make of them.
use lexical_exponent::{
    BaseExponent, BitExponent, DigitExponent, base_exponent, calculate_shl, digit_exponent,
    digits_in_bits, height_above, is_below, places_before_point, powers_in_bits, raised,
    significant_bits, unsigned_abs, zeros_behind_point,
};
use std::io;

// `s <s>, b <b>, c <c>: p <p>, <sign><magnitude>`
fn scaled_line(rt: &impl Print, s: i32, b: u32, c: u32) -> io::Result<()> {
    let p = digit_exponent(BitExponent(s), b);
    let power = base_exponent(p, b, c);
    let sign = if power.0 { "-" } else { "" };
    println!(rt; "s {s}, b {b}, c {c}: p {}, {sign}{}", p.0, power.1)
}

// The bits of a digit and of the base, for each pair.
const PAIRS: [(u32, u32); 10] = [
    (1, 1),
    (2, 2),
    (3, 3),
    (4, 4),
    (5, 5),
    (2, 1),
    (3, 1),
    (4, 1),
    (5, 1),
    (4, 2),
];

// Exponents and bits at the ends of what the types hold.
const ENDS: [(i32, u32, u32); 5] = [
    (i32::MIN, 1, 1),
    (i32::MIN, u32::MAX, 1),
    (i32::MAX, 0, 1),
    (i32::MIN, 0, 1),
    (-1, 4, 0),
];

fn scales(rt: &impl Print) -> io::Result<()> {
    for s in [-1074, -5, -4, -1, 0, 4, 1023] {
        for (b, c) in PAIRS {
            scaled_line(rt, s, b, c)?;
        }
    }
    for (s, b, c) in ENDS {
        scaled_line(rt, s, b, c)?;
    }
    Ok(())
}

// `<n> of b <b>: mod <e mod b>, zeros <count>, places <count>, digits <bits>, powers <bits>, raised <bits>`: one number as an exponent of each kind.
fn counted_line(rt: &impl Print, n: i32, b: u32) -> io::Result<()> {
    let shl = calculate_shl(BitExponent(n), b);
    let zeros = zeros_behind_point(DigitExponent(n));
    let places = places_before_point(DigitExponent(n));
    let digits = digits_in_bits(DigitExponent(n), b).0;
    let powers = powers_in_bits(BaseExponent(n < 0, u64::from(unsigned_abs(n))), b).0;
    let raised = raised(BitExponent(n), b).0;
    print!(rt; "{n} of b {b}: mod {shl}, zeros {zeros}, places {places}, ")?;
    println!(rt; "digits {digits}, powers {powers}, raised {raised}")
}

fn counts(rt: &impl Print) -> io::Result<()> {
    for n in [i32::MIN, -1074, -5, -4, -1, 0, 4, 1023, i32::MAX] {
        for b in [0, 1, 4, 5, u32::MAX] {
            counted_line(rt, n, b)?;
        }
    }
    Ok(())
}

// `<e> is below <d>, and stands above it by <count>`, or `is not below`.
fn height_line(rt: &impl Print, e: i32, d: i32) -> io::Result<()> {
    let not = if is_below(BitExponent(e), BitExponent(d)) {
        ""
    } else {
        "not "
    };
    let height = height_above(BitExponent(e), BitExponent(d));
    println!(rt; "{e} is {not}below {d}, and stands above it by {height}")
}

fn heights(rt: &impl Print) -> io::Result<()> {
    for (e, d) in [
        (-1022, -1074),
        (-1074, -1074),
        (-1075, -1074),
        (i32::MAX, i32::MIN),
        (i32::MIN, i32::MAX),
    ] {
        height_line(rt, e, d)?;
    }
    Ok(())
}

// `<value> has <count> bits`
fn bits(rt: &impl Print) -> io::Result<()> {
    for value in [
        0,
        1,
        4503599627370495,
        4503599627370496,
        9223372036854775807,
        u64::MAX,
    ] {
        println!(rt; "{value} has {} bits", significant_bits(value))?;
    }
    Ok(())
}

pub(crate) fn run(rt: &impl Print) -> io::Result<()> {
    scales(rt)?;
    counts(rt)?;
    heights(rt)?;
    bits(rt)
}
