// The checks of a format, for which the Rust has assertions: document 01, refusals 1 to 6 in their order, and document 02, 16. The reader stops after 3.
ghost use Rattle.std.specs.Prelude.{◌≡◌};
ghost use Rattle.lexical_util.specs.Answer.{done, checked, of_result};
ghost use Rattle.lexical_format.specs.Format.{bad_byte, bad_counts, or_absent, outside, reading_format, checked_format, settled, exponent_checks, writing_checks};
ghost use Rattle.lexical_format.specs.Code.{bad_bytes_of, reading_of};

use crate::format::{NumberFormat, Pair, find_pair};
use crate::options::Options;
use lexical_exponent::{BitExponent, is_below};
use lexical_util::{Reason, Refusal};

// A format as the writer's later steps need it: b, c, and the breaks, none absent, in bits.
#[derive(Clone, Copy)]
pub struct CheckedFormat {
    pub b: u32,
    pub c: u32,
    pub negative_exponent_break: BitExponent,
    pub positive_exponent_break: BitExponent,
}

// A byte that neither point nor mark may be: outside 33 to 126, "+", "-", or a digit of the radix.
fn bad_byte(radix: u32, byte: u8) -> bool
    ensures { result ≡ bad_byte radix byte }
{
    if byte < 33 || byte > 126 || byte == b'+' || byte == b'-' {
        return true;
    }
    match lexical_util::digit_value(byte) {
        Some(digit) => (digit as u32) < radix,
        None => false,
    }
}

// 3: a bad point, a bad mark, or the two equal.
fn bad_bytes(radix: u32, point: u8, mark: u8) -> bool
    ensures { result ≡ bad_bytes_of radix point mark }
{
    bad_byte(radix, point) || bad_byte(radix, mark) || point == mark
}

// The most digits that a count may ask for, and how far from 0 a break may lie: document 01, "Formats".
pub const MOST_COUNT: u32 = 1200;

const HIGHEST_BREAK: i32 = 2000;

const LOWEST_BREAK: i32 = -HIGHEST_BREAK;

// 5: a count above the most, or both given and least above most.
fn bad_counts(options: Options) -> bool
    ensures { result ≡ bad_counts options }
{
    let least = options.min_significant_digits;
    let most = options.max_significant_digits;
    least > MOST_COUNT || most > MOST_COUNT || least != 0 && most != 0 && least > most
}

// A break, which is in bits; 0 means absent.
fn or_absent(absent: i32, value: i32) -> BitExponent
    ensures { result.0 ≡ or_absent absent value }
{
    if value == 0 {
        return BitExponent(absent);
    }
    BitExponent(value)
}

// Out of the range from least to most: of a break in the check, and of s in a layout.
pub fn outside(least: BitExponent, most: BitExponent, value: BitExponent) -> bool
    ensures { result ≡ outside least.0 most.0 value.0 }
{
    is_below(value, least) || is_below(most, value)
}

#[tactic(auto, unfolding(crate::specs::Code::reading_of))]
// 1, 2, 3, else the pair's row. It takes the five numbers that these look at, in registers: both checks call it, and a format and options handed on in memory would have to be stored first and loaded again.
fn check_numbers(radix: u32, base: u32, power: u32, point: u8, mark: u8) -> Result<Pair, Refusal>
    ensures { of_result result ≡ reading_of radix base power point mark }
{
    let Some(pair) = find_pair(radix, base) else {
        return Err(Reason::UnknownPair.at(0));
    };
    if !lexical_util::is_radix(power) {
        return Err(Reason::UnknownRadix.at(0));
    }
    if bad_bytes(radix, point, mark) {
        return Err(Reason::BadByte.at(0));
    }
    Ok(pair)
}

// The reader's check: 1, 2, 3, else the pair's row.
pub fn check_reading(format: NumberFormat, options: Options) -> Result<Pair, Refusal>
    ensures { of_result result ≡ reading_format format options }
{
    let radix = format.mantissa_radix;
    let base = format.exponent_base;
    let power = format.exponent_radix;
    check_numbers(radix, base, power, options.decimal_point, options.exponent)
}

// 6, 16 of a format that passed the checks before them, with the row.
fn check_exponents(options: Options, row: Pair) -> Result<CheckedFormat, Refusal>
    ensures { of_result result ≡ checked (exponent_checks options) (done (settled options row)) }
{
    let low = or_absent(-5, options.negative_exponent_break);
    let high = or_absent(9, options.positive_exponent_break);
    if outside(BitExponent(LOWEST_BREAK), BitExponent(-1), low)
        || outside(BitExponent(1), BitExponent(HIGHEST_BREAK), high)
    {
        return Err(Reason::BadBreak.at(0));
    }
    if !lexical_util::is_width(options.exponent_width) {
        return Err(Reason::BadWidth.at(0));
    }
    Ok(CheckedFormat {
        b: row.b,
        c: row.c,
        negative_exponent_break: low,
        positive_exponent_break: high,
    })
}

// 4, 5, 6, 16 of a format that passed the reader's check with the row.
fn check_writing(
    format: NumberFormat,
    options: Options,
    row: Pair,
) -> Result<CheckedFormat, Refusal>
    ensures { of_result result ≡ checked (writing_checks (bad_counts options) format options) (done (settled options row)) }
{
    if format.required_exponent_notation && format.no_exponent_notation {
        return Err(Reason::RequiredAndForbidden.at(0));
    }
    if bad_counts(options) {
        return Err(Reason::BadCount.at(0));
    }
    check_exponents(options, row)
}

// The writer's check: the reader's, then 4, 5, 6, 16.
pub fn check(format: NumberFormat, options: Options) -> Result<CheckedFormat, Refusal>
    ensures { of_result result ≡ checked_format format options }
{
    let radix = format.mantissa_radix;
    let base = format.exponent_base;
    let power = format.exponent_radix;
    let row = check_numbers(radix, base, power, options.decimal_point, options.exponent)?;
    check_writing(format, options, row)
}
