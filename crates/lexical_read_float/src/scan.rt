// The shape of a text, found in one pass, with the numbers that its parts spell; or, as an error, the place of refusal 9.
ghost use Rattle.std.specs.Prelude.{◌≡◌, [], ℕ, ◌+◌, ◌*◌, ◌≤◌, ◌<◌, nat_abs, length, drop};
ghost use Rattle.lexical_read_float_spec.specs.Shape.{Sign, exponent};
ghost use Rattle.lexical_read_float_spec.specs.Parse.{begins_with, exponent_digits, signed_exponent, parse_tail, parse};
ghost use Rattle.lexical_read_float_spec.specs.Read.{has_minus, longest_read};
ghost use Rattle.lexical_read_float.specs.Scan.{grammar, with_fraction, scanned_tail, scanned_shape, IsBounded};

use crate::digits::{exponent_digits, mantissa_digits};
use crate::kept::Kept;
use lexical_exponent::{BaseExponent, DigitExponent};
use lexical_float::minus_length;

// A text's exponent: its sign and its magnitude, or 32,768 for any above, in powers of the base, and the place of its first digit. Without one, 0 at the text's end.
#[derive(Clone, Copy)]
pub(crate) struct Exponent {
    pub power: BaseExponent,
    pub place: usize,
}

// What a text spells: whether "-" stands in front, its digits, how many of them stand behind the point, and its exponent.
#[derive(Clone, Copy)]
pub(crate) struct Number {
    pub negative: bool,
    pub kept: Kept,
    pub fraction: DigitExponent,
    pub exponent: Exponent,
}

// One or more exponent digits behind a place, and nothing behind them.
fn scan_exponent_digits(
    text: &[u8],
    before: usize,
    radix: u32,
    negative: bool,
) -> Result<Exponent, usize>
    requires { (before < length text.now) × (1 ≤ radix) × (radix ≤ 32) }
    ensures { (s : Sign) → has_minus (exponent s []) ≡ negative → result ≡ scanned_tail text.now radix (exponent_digits radix s (drop (before + 1) text.now)) }
{
    let from = before + 1;
    let digits = exponent_digits(text, from, radix);
    let end = digits.end;
    if end == from {
        return Err(from);
    }
    if end < text.len() {
        return Err(end);
    }
    Ok(Exponent {
        power: BaseExponent(negative, digits.magnitude as u64),
        place: from,
    })
}

// Behind the mark at a place: a "+" or "-" or neither, then the digits.
fn scan_exponent(text: &[u8], at: usize, radix: u32) -> Result<Exponent, usize>
    requires { (at < length text.now) × (1 ≤ radix) × (radix ≤ 32) }
    ensures { result ≡ scanned_tail text.now radix (signed_exponent radix (drop (at + 1) text.now)) }
{
    let next = at + 1;
    if next == text.len() {
        return Err(next);
    }
    let byte = text[next];
    if byte == b'+' {
        return scan_exponent_digits(text, next, radix, false);
    }
    if byte == b'-' {
        return scan_exponent_digits(text, next, radix, true);
    }
    scan_exponent_digits(text, at, radix, false)
}

// Behind the mantissa: nothing, or the mark and an exponent.
fn scan_tail(text: &[u8], from: usize, radix: u32, mark: u8) -> Result<Exponent, usize>
    requires { (from ≤ length text.now) × (1 ≤ radix) × (radix ≤ 32) }
    ensures { (mantissa_radix point : ℕ) → result ≡ scanned_tail text.now radix (parse_tail (grammar mantissa_radix radix point mark) (drop from text.now)) }
{
    if from == text.len() {
        return Ok(Exponent {
            power: BaseExponent(false, 0),
            place: text.len(),
        });
    }
    if text[from] != mark {
        return Err(from);
    }
    scan_exponent(text, from, radix)
}

// Whether a byte stands at a place.
fn stands_at(text: &[u8], at: usize, byte: u8) -> bool
    requires { at ≤ length text.now }
    ensures { result ≡ begins_with byte (drop at text.now) }
{
    if at == text.len() {
        return false;
    }
    text[at] == byte
}

// A mantissa: where it ends, what is kept of its digits, and how many of them stand behind the point.
#[derive(Clone, Copy)]
struct Mantissa {
    end: usize,
    kept: Kept,
    fraction: DigitExponent,
}

// The digits in front of a place, with those behind the point if it stands there.
fn with_fraction(text: &[u8], end: usize, radix: u32, b: u32, point: u8, kept: Kept) -> Mantissa
    requires { (end ≤ length text.now) × (length text.now ≤ longest_read) × (radix ≤ 32) × (b ≤ 5) × (kept.below ≤ 5 * end) }
    ensures value { result ≡ with_fraction text.now radix b kept end (begins_with point (drop end text.now)) }
    ensures room { (result.end ≤ length text.now) × (result.kept.below ≤ 5 * result.end) × (nat_abs result.fraction.0 ≤ longest_read) }
{
    if stands_at(text, end, point) {
        let from = end + 1;
        let digits = mantissa_digits(text, from, radix, b, kept);
        let all = digits.kept;
        let count = digits.end - from;
        return Mantissa {
            end: digits.end,
            kept: all,
            fraction: DigitExponent(count as i32),
        };
    }
    Mantissa {
        end,
        kept,
        fraction: DigitExponent(0),
    }
}

// A text's numbers, or the first place at which no text has this byte. One call looks at what stands behind the mantissa, with a point in it or without, so that the compiler puts it in place.
pub(crate) fn scan(
    text: &[u8],
    radix: u32,
    b: u32,
    exponent_radix: u32,
    point: u8,
    mark: u8,
) -> Result<Number, usize>
    requires { (length text.now ≤ longest_read) × (radix ≤ 32) × (b ≤ 5) × (1 ≤ exponent_radix) × (exponent_radix ≤ 32) }
    ensures value { result ≡ scanned_shape text.now b exponent_radix (parse (grammar radix exponent_radix point mark) text.now) }
    ensures bounded { IsBounded result }
{
    let negative = stands_at(text, 0, b'-');
    let sign = minus_length(negative);
    let start = Kept {
        bits: 0,
        below: 0,
        clear: true,
    };
    let whole = mantissa_digits(text, sign, radix, b, start);
    let end = whole.end;
    let kept = whole.kept;
    if end == sign {
        return Err(sign);
    }
    let mantissa = with_fraction(text, end, radix, b, point, kept);
    let all = mantissa.kept;
    let fraction = mantissa.fraction;
    let exponent = scan_tail(text, mantissa.end, exponent_radix, mark)?;
    Ok(Number {
        negative,
        kept: all,
        fraction,
        exponent,
    })
}
