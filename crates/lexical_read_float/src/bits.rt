// The bits of the float that a text is read as, or the first refusal: one body on u64, with the width beside it.
ghost use Rattle.std.specs.Prelude.{◌≡◌, List, ◌++◌, ℕ, ◌^◌, ◌≤◌, ◌<◌, ◌*◌, pos};
ghost use Rattle.lexical_util.specs.Answer.{done};
ghost use Rattle.lexical_exponent.specs.Exponent.{height_above};
ghost use Rattle.lexical_util.specs.Digit.{AreDigits};
ghost use Rattle.lexical_float.specs.Encoding.{of_width, bits_of};
ghost use Rattle.lexical_format.specs.Format.{reading_format};
ghost use Rattle.lexical_read_float_spec.specs.Shape.{Shape};
ghost use Rattle.lexical_read_float_spec.specs.Read.{grammar_of, value_of, read_text, longest_read, greatest_exponent};
ghost use Rattle.lexical_read_float.specs.Scan.{number_of, Bounded};
ghost use Rattle.lexical_read_float.specs.Kept.{IsFull};
ghost use Rattle.lexical_read_float.specs.Pattern.{infinity};
ghost use Rattle.lexical_read_float.specs.Rounding.{of_rounded, IsFinite};
ghost use Rattle.lexical_read_float.specs.Bits.{of_float_bits, AreFinite, powers_of};

use crate::round::round_kept;
use crate::scan::{Number, scan};
use lexical_exponent::{BitExponent, digits_in_bits, height_above, powers_in_bits};
use lexical_float::{Width, encoding_of};
use lexical_format::{NumberFormat, Options, Pair};
use lexical_util::{Reason, Refusal};

// The longest text that is read, and the greatest magnitude of an exponent: document 01, "Read a float".
pub const LONGEST_READ: usize = 4096;

pub(crate) const GREATEST_EXPONENT: u64 = 32767;

// The bits of a float with its sign, from those below it.
fn signed_bits(bits: u64, negative: bool, width: Width) -> u64
    requires { bits < infinity (of_width width) }
    ensures { result ≡ bits_of (of_width width) negative bits }
{
    let encoding = encoding_of(width);
    if negative {
        return encoding.sign_mask + bits;
    }
    bits
}

// 11: too large, of the magnitude.
fn rounded_bits(rounded: Option<u64>, negative: bool, width: Width) -> Result<u64, Refusal>
    requires { IsFinite (of_width width) rounded }
    ensures result_value { of_float_bits (of_width width) result ≡ of_rounded (of_width width) negative rounded }
    ensures finite { AreFinite (of_width width) result }
{
    match rounded {
        Some(bits) => Ok(signed_bits(bits, negative, width)),
        None => Err(Reason::TooLarge.at(0)),
    }
}

// The powers of two by which a number is multiplied and divided.
#[derive(Clone, Copy)]
struct Powers {
    up: u32,
    down: u32,
}

// Digits behind the point divide. So does the exponent's power where it is below 0; else it multiplies.
fn powers_of(places: BitExponent, power: BitExponent) -> Powers
    requires { (height_above places.0 (pos 0) ≤ 5 * longest_read) × (height_above (pos 0) power.0 ≤ 5 * greatest_exponent) }
    ensures { result ≡ powers_of places.0 power.0 }
{
    let none = BitExponent(0);
    let behind = height_above(places, none);
    let below = height_above(none, power);
    Powers {
        up: height_above(power, none),
        down: behind + below,
    }
}

// The value of a text's numbers. 10 comes before the powers are formed. One call rounds, whatever the exponent's sign, so that the compiler puts it in place.
fn value_bits(number: Number, row: Pair, width: Width) -> Result<u64, Refusal>
    requires { Bounded number × IsFull number.kept × (row.b ≤ 5) × (row.c ≤ 5) }
    ensures by_index { (t : List ℕ) (power : ℕ) (s : Shape) → AreDigits (2 ^ row.b) (s.whole ++ s.fraction) → number ≡ number_of t row.b power s → of_float_bits (of_width width) result ≡ value_of (of_width width) row power t s }
    ensures finite { AreFinite (of_width width) result }
{
    let exponent = number.exponent;
    let kept = number.kept;
    let fraction = number.fraction;
    let power = exponent.power;
    if power.1 > GREATEST_EXPONENT {
        return Err(Reason::ExponentTooGreat.at(exponent.place));
    }
    let places = digits_in_bits(fraction, row.b);
    let powers = powers_of(places, powers_in_bits(power, row.c));
    let rounded = round_kept(kept, powers.up, powers.down, width);
    rounded_bits(rounded, number.negative, width)
}

// A text in a format that passed the check with the row: 12, 9, then its value. Each width calls it behind the check, so that no format is copied on its way to both.
pub(crate) fn text_bits(
    text: &[u8],
    format: NumberFormat,
    options: Options,
    row: Pair,
    width: Width,
) -> Result<u64, Refusal>
    requires { reading_format format options ≡ done row }
    ensures result_value { of_float_bits (of_width width) result ≡ read_text (of_width width) (grammar_of format options) text.now row }
    ensures finite { AreFinite (of_width width) result }
{
    if text.len() > LONGEST_READ {
        return Err(Reason::TooLong.at(0));
    }
    let radix = format.mantissa_radix;
    let power = format.exponent_radix;
    let point = options.decimal_point;
    let mark = options.exponent;
    match scan(text, radix, row.b, power, point, mark) {
        Ok(number) => value_bits(number, row, width),
        Err(place) => Err(Reason::WrongShape.at(place)),
    }
}
