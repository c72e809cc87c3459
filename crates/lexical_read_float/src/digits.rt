// The digits in a text from a place on: where they end, and the number that they spell. No byte is looked at again but the one at which a loop stops.
ghost use Rattle.std.specs.Prelude.{◌≡◌, ◌&&◌, ◌*◌, ◌≤◌, min, length};
ghost use Rattle.lexical_util.specs.Digit.{digit_value, digits_value};
ghost use Rattle.lexical_read_float.specs.Kept.{keep_digits};
ghost use Rattle.lexical_read_float.specs.Digits.{IsDigitOrNone, all_zero, digits_from, end_from, FilledBits};
ghost use Rattle.lexical_read_float_spec.specs.Read.{longest_read};
ghost use Rattle.lexical_read_float.specs.Scan.{too_great};

use crate::bits::GREATEST_EXPONENT;
use crate::kept::Kept;
use lexical_exponent::{BitExponent, DigitExponent, digits_in_bits, height_above};

// Digits that went into the bits: where they end, and the bits.
#[derive(Clone, Copy)]
struct LeadingDigits {
    end: usize,
    bits: u64,
}

// Digits below full bits: where they end, and whether all are 0.
#[derive(Clone, Copy)]
struct FurtherDigits {
    end: usize,
    clear: bool,
}

// Digits of a mantissa: where they end, and what is kept of the number that they spell behind the digits before them.
#[derive(Clone, Copy)]
pub(crate) struct MantissaDigits {
    pub end: usize,
    pub kept: Kept,
}

// Digits of an exponent: where they end, and the number that they spell, or the first one that is too great for any above.
#[derive(Clone, Copy)]
pub(crate) struct ExponentDigits {
    pub end: usize,
    pub magnitude: u32,
}

// A byte's digit value, or 255 where it has none, so that a loop tests one number. Two matches of one range each, figures and then capitals: one match with both ranges branches between them.
fn digit_or_none(byte: u8) -> u32
    ensures { IsDigitOrNone (digit_value byte) result }
{
    let value = byte as u32;
    let figure = match byte {
        b'0'..=b'9' => value - b'0' as u32,
        _ => 255,
    };
    match byte {
        b'A'..=b'V' => value - b'A' as u32 + 10,
        _ => figure,
    }
}

// A value of its own for `&&`, where what each side showed is not needed.
fn both(a: bool, b: bool) -> bool
    ensures { result ≡ (a && b) }
{
    a && b
}

// The digits from a place on that go into the bits: until these are full, or a byte is no digit.
fn leading_digits(text: &[u8], from: usize, radix: u32, b: u32, start: u64) -> LeadingDigits
    requires { (from ≤ length text.now) × (radix ≤ 32) × (b ≤ 5) }
    ensures { FilledBits radix b text.now from start result.end result.bits }
{
    let mut bits = start;
    for i in from..text.len() {
        if bits >= 0x0400_0000_0000_0000 {
            return LeadingDigits { end: i, bits };
        }
        let digit = digit_or_none(text[i]);
        if digit >= radix {
            return LeadingDigits { end: i, bits };
        }
        bits = (bits << b) + digit as u64;
    }
    LeadingDigits {
        end: text.len(),
        bits,
    }
}

// The digits from a place on, below full bits: only whether all are 0 matters, and the bits that any of them has tell that at the end.
fn further_digits(text: &[u8], from: usize, radix: u32) -> FurtherDigits
    requires { (from ≤ length text.now) × (radix ≤ 32) }
    ensures { (result.end ≡ end_from radix text.now from) × (result.clear ≡ all_zero (digits_from radix text.now from)) × (result.end ≤ length text.now) }
{
    let mut seen: u32 = 0;
    for i in from..text.len() {
        let digit = digit_or_none(text[i]);
        if digit >= radix {
            return FurtherDigits {
                end: i,
                clear: seen == 0,
            };
        }
        seen = seen | digit;
    }
    FurtherDigits {
        end: text.len(),
        clear: seen == 0,
    }
}

// The digits from a place on, behind those already kept.
pub(crate) fn mantissa_digits(
    text: &[u8],
    from: usize,
    radix: u32,
    b: u32,
    start: Kept,
) -> MantissaDigits
    requires { (from ≤ length text.now) × (length text.now ≤ longest_read) × (radix ≤ 32) × (b ≤ 5) × (start.below ≤ 5 * from) }
    ensures { (result.end ≡ end_from radix text.now from) × (result.kept ≡ keep_digits b start (digits_from radix text.now from)) × (result.kept.below ≤ 5 * result.end) × (result.end ≤ length text.now) }
{
    let leading = leading_digits(text, from, radix, b, start.bits);
    let end = leading.end;
    let bits = leading.bits;
    let below = start.below;
    let clear = start.clear;
    // Where the bits are not full, no digit is left.
    if bits < 0x0400_0000_0000_0000 {
        return MantissaDigits {
            end,
            kept: Kept { bits, below, clear },
        };
    }
    let further = further_digits(text, end, radix);
    let count = further.end - end;
    let lower = digits_in_bits(DigitExponent(count as i32), b);
    let under = below + height_above(lower, BitExponent(0));
    MantissaDigits {
        end: further.end,
        kept: Kept {
            bits,
            below: under,
            clear: both(clear, further.clear),
        },
    }
}

// The first magnitude that is refused. However far an exponent lies above it, it is this one.
const TOO_GREAT: u32 = GREATEST_EXPONENT as u32 + 1;

// The least of a number and that one.
fn saturated(value: u32) -> u32
    ensures { result ≡ min value too_great }
{
    if value > TOO_GREAT { TOO_GREAT } else { value }
}

// The exponent digits from a place on. The sum saturates, so that no number of digits makes it wrap.
pub(crate) fn exponent_digits(text: &[u8], from: usize, radix: u32) -> ExponentDigits
    requires { (from ≤ length text.now) × (1 ≤ radix) × (radix ≤ 32) }
    ensures { (result.end ≡ end_from radix text.now from) × (result.magnitude ≡ min (digits_value radix (digits_from radix text.now from)) too_great) × (result.end ≤ length text.now) }
{
    let mut magnitude: u32 = 0;
    for i in from..text.len() {
        let digit = digit_or_none(text[i]);
        if digit >= radix {
            return ExponentDigits { end: i, magnitude };
        }
        magnitude = saturated(magnitude * radix + digit);
    }
    ExponentDigits {
        end: text.len(),
        magnitude,
    }
}
