// Derived from `write_float` of lexical-write-float/src/binary.rs, for equal pairs, and hex.rs, for mixed ones, changed: one body over a float's parts for both widths and all ten pairs, and refusals for assertions.
ghost use Rattle.std.specs.Prelude.{◌≡◌, T, List, ◌++◌, ℕ, ◌^◌, ◌≤◌, ◌<◌, nat_abs, length, drop};
ghost use Rattle.lexical_util.specs.Answer.{done, written, held, of_result};
ghost use Rattle.std.specs.Float.Ieee.{fits};
ghost use Rattle.lexical_float.specs.Sign.{minus_sign};
ghost use Rattle.lexical_float.specs.Parts.{parts_of, IsValue};
ghost use Rattle.lexical_format.specs.declared.format.NumberFormat.{NumberFormat};
ghost use Rattle.lexical_format.specs.declared.options.Options.{Options};
ghost use Rattle.lexical_write_float_spec.specs.Value.{exact_digits};
ghost use Rattle.lexical_write_float_spec.specs.Text.{point, least, digits_so_far, text};
ghost use Rattle.lexical_write_float_spec.specs.Range.{Ranged};
ghost use Rattle.lexical_write_float.specs.Code.{FloatParts, Passed, checked_row, Counted, digits_of, IsPlaced, IsPlan, body_text, magnitude_text, parts_text, asked_by_parts, OfFloat};
ghost use Rattle.lexical_write_float_spec.specs.Write.{write_text, NoLonger, NeverRefused};
ghost use Rattle.lexical_format.specs.Format.{most_count};

use crate::binary::{
    normalized, truncate_and_round, write_float_negative_exponent, write_float_positive_exponent,
};
use crate::hex::write_float_scientific;
use crate::plan::{Digits, Plan, write_plan};
use crate::shared::choose_layout;
use lexical_exponent::{
    BitExponent, DigitExponent, Magnitude, base_exponent, calculate_shl, digit_exponent,
    places_before_point, sci_exp,
};
use lexical_float::{Float, Parts, minus_length};
use lexical_format::{CheckedFormat, NumberFormat, Options};
use lexical_util::{Reason, Refusal};
use lexical_write_float_spec::Layout;

// No text is longer: document 01, "Layout", and a byte for the sign, document 02, 2.3. A buffer of so many bytes serves every float, format and option.
pub const LONGEST_TEXT: usize = 2276;

// D of a value: the mantissa is shifted up by e mod b, and what is left of e is a whole number of digits.
fn digits_of(value: Magnitude, bits_per_digit: u32) -> Digits
    requires { (0 < bits_per_digit) × (bits_per_digit ≤ 5) × (value.mantissa < 2 ^ 54) }
    ensures { (digits_of result ≡ exact_digits bits_per_digit value.mantissa value.exponent.0) × Counted result }
{
    let exponent = value.exponent;
    let shl = calculate_shl(exponent, bits_per_digit);
    let shifted = value.mantissa << shl;
    Digits {
        value: shifted,
        bits_per_digit,
        count: lexical_write_integer::digit_log(shifted, bits_per_digit),
    }
}

// p, and D.
#[derive(Clone, Copy)]
struct Placed {
    p: DigitExponent,
    digits: Digits,
}

fn place_digits(value: Magnitude, s: BitExponent, bits_per_digit: u32) -> Placed
    requires { (0 < bits_per_digit) × (bits_per_digit ≤ 5) × (value.mantissa < 2 ^ 54) }
    ensures { IsPlaced value.mantissa value.exponent.0 s.0 bits_per_digit result }
{
    let p = digit_exponent(s, bits_per_digit);
    let digits = digits_of(value, bits_per_digit);
    Placed { p, digits }
}

// The same by five constants: p, the shift and the count of digits each divide by the bits of a digit, and the compiler then chooses once for the three.
fn place_by_bits(value: Magnitude, s: BitExponent, bits_per_digit: u32) -> Placed
    requires { (0 < bits_per_digit) × (bits_per_digit ≤ 5) × (value.mantissa < 2 ^ 54) }
    ensures { IsPlaced value.mantissa value.exponent.0 s.0 bits_per_digit result }
{
    match bits_per_digit {
        1 => place_digits(value, s, 1),
        2 => place_digits(value, s, 2),
        3 => place_digits(value, s, 3),
        4 => place_digits(value, s, 4),
        _ => place_digits(value, s, 5),
    }
}

// The length of D plus one, for zero 1: the digits so far where zeros filled the places of the positive layout.
fn digits_so_far(mantissa: u64, count: usize) -> usize
    requires { count ≤ 64 }
    ensures { (F : NumberFormat) (o : Options) (D : List ℕ) → length D ≡ count → result ≡ digits_so_far F o mantissa D }
{
    if mantissa == 0 { 1 } else { count + 1 }
}

// The plan of a layout, by one of three functions.
fn plan_of(
    layout: Layout,
    count: usize,
    p: DigitExponent,
    so_far: usize,
    format: NumberFormat,
    options: Options,
) -> Plan
    requires { (0 < count) × (nat_abs p.0 ≤ 1074) × (least format options ≤ most_count) }
    ensures { IsPlan (point format options) count (body_text format options p.0 so_far layout) result }
{
    match layout {
        Layout::Scientific => write_float_scientific(count, format, options),
        Layout::Negative => write_float_negative_exponent(count, p, options),
        Layout::Positive => {
            let places = places_before_point(p);
            write_float_positive_exponent(count, places, so_far, options)
        }
    }
}

// The text of a value in normal form, if there is room for it, and its length.
fn write_value(
    value: Magnitude,
    format: NumberFormat,
    options: Options,
    checked: CheckedFormat,
    buffer: &mut [u8],
) -> usize
    requires { Passed format options checked × Ranged value.mantissa value.exponent.0 }
    ensures value { result ≡ length (text format options (checked_row checked) value.mantissa value.exponent.0) }
    ensures buffer_after { buffer.new ≡ held (done (text format options (checked_row checked) value.mantissa value.exponent.0)) buffer.old }
{
    let s = sci_exp(value);
    let placed = place_by_bits(value, s, checked.b);
    let p = placed.p;
    let digits = placed.digits;
    let so_far = digits_so_far(value.mantissa, digits.count);
    let layout = choose_layout(format, checked, s);
    let plan = plan_of(layout, digits.count, p, so_far, format, options);
    let exponent = base_exponent(p, checked.b, checked.c);
    write_plan(digits, plan, layout, exponent, format, options, buffer)
}

// The text of a finite float's magnitude, if there is room for it, and its length.
fn write_magnitude(
    value: Magnitude,
    format: NumberFormat,
    options: Options,
    checked: CheckedFormat,
    buffer: &mut [u8],
) -> usize
    requires { Passed format options checked × FloatParts value }
    ensures value { result ≡ length (magnitude_text format options checked value) }
    ensures buffer_after { buffer.new ≡ held (done (magnitude_text format options checked value)) buffer.old }
{
    let exact = normalized(value);
    let digits = options.max_significant_digits;
    let mode = options.round_mode;
    let limited = truncate_and_round(exact, checked.b, digits, mode);
    write_value(limited, format, options, checked, buffer)
}

// The sign in front of a text.
fn put_minus(buffer: &mut [u8], negative: bool)
    requires { length (minus_sign negative) ≤ length buffer.old }
    ensures { buffer.new ≡ minus_sign negative ++ drop (length (minus_sign negative)) buffer.old }
{
    if negative {
        buffer[0] = b'-';
    }
}

// The text of a finite float, or 8. Its sign is written last: only then is it known that there is room for the whole.
fn write_signed(
    negative: bool,
    value: Magnitude,
    format: NumberFormat,
    options: Options,
    checked: CheckedFormat,
    buffer: &mut [u8],
) -> Result<usize, Refusal>
    requires { Passed format options checked × FloatParts value }
    ensures result_value { of_result result ≡ written (done (minus_sign negative ++ magnitude_text format options checked value)) buffer.old }
    ensures buffer_after { buffer.new ≡ held (done (minus_sign negative ++ magnitude_text format options checked value)) buffer.old }
{
    let sign = minus_length(negative);
    let room = buffer.len();
    if room < sign {
        return Err(Reason::NoRoom.at(0));
    }
    let left = room - sign;
    let count = write_magnitude(value, format, options, checked, &mut buffer[sign..]);
    if count > left {
        return Err(Reason::NoRoom.at(0));
    }
    put_minus(buffer, negative);
    let length = sign + count;
    Ok(length)
}

// The text of a float by its parts, in a format that passed the check; 7 where it is not finite.
fn write_checked(
    parts: Parts,
    format: NumberFormat,
    options: Options,
    checked: CheckedFormat,
    buffer: &mut [u8],
) -> Result<usize, Refusal>
    requires { Passed format options checked × OfFloat parts }
    ensures result_value { of_result result ≡ written (parts_text format options checked parts) buffer.old }
    ensures buffer_after { buffer.new ≡ held (parts_text format options checked parts) buffer.old }
{
    match parts {
        Parts::Finite(negative, value) => {
            write_signed(negative, value, format, options, checked, buffer)
        }
        Parts::Special => Err(Reason::NotFinite.at(0)),
    }
}

// The same in any format, whose refusals come first. Both widths come here, and from here on every larger function is called from one place: the compiler makes one function of them.
fn write_parts(
    parts: Parts,
    format: NumberFormat,
    options: Options,
    buffer: &mut [u8],
) -> Result<usize, Refusal>
    requires { OfFloat parts }
    ensures result_value { of_result result ≡ written (asked_by_parts format options parts) buffer.old }
    ensures buffer_after { buffer.new ≡ held (asked_by_parts format options parts) buffer.old }
{
    let checked = lexical_format::check(format, options)?;
    write_checked(parts, format, options, checked, buffer)
}

// A float's parts, by a function of its own: its contract sees what goes wrong at one width alone.
fn parts<F: Float>(x: F) -> Parts
    ensures parts { result ≡ parts_of F.format (F.value x) }
    ensures value { IsValue (F.value x) result }
    ensures fits { T (fits F.format (F.value x)) }
{
    x.parts()
}

// The text of a float of either width under a format, or a refusal, which leaves every byte as it was.
pub fn write_float<F: Float>(
    x: F,
    format: NumberFormat,
    options: Options,
    buffer: &mut [u8],
) -> Result<usize, Refusal>
    ensures result_value { of_result result ≡ written (write_text format options (F.value x)) buffer.old }
    ensures buffer_after { buffer.new ≡ held (write_text format options (F.value x)) buffer.old }
    ensures longest { NoLonger (of_result result) }
    ensures served { NeverRefused format options (F.value x) buffer.old (of_result result) }
{
    write_parts(parts(x), format, options, buffer)
}
