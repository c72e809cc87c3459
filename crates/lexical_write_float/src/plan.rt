// A text as a run of pieces: digits of D, zeros, a point, zeros, the other digits of D, zeros. Each layout is such a plan, so that one function measures a text and one writes it.
ghost use Rattle.std.specs.Prelude.{◌≡◌, true, List, ◌++◌, ℕ, ◌+◌, ◌≤◌, ◌<◌, length};
ghost use Rattle.lexical_util.specs.Answer.{done, held};
ghost use Rattle.lexical_util.specs.Digit.{is_radix, is_width};
ghost use Rattle.lexical_buffer.specs.Put.{Puts};
ghost use Rattle.lexical_write_float.specs.Code.{Counted, digits_of, Small, Measured, fraction_text, plan_text, tail_text};

use crate::pieces::{put_digits, put_leading, put_zeros};
use crate::shared::{exponent_length, write_exponent};
use lexical_buffer::put_byte;
use lexical_exponent::BaseExponent;
use lexical_format::{NumberFormat, Options};
use lexical_write_float_spec::Layout;

// D by the number that it spells in radix 2^bits_per_digit, and how many digits it has.
#[derive(Clone, Copy)]
pub(crate) struct Digits {
    pub value: u64,
    pub bits_per_digit: u32,
    pub count: usize,
}

#[derive(Clone, Copy)]
pub(crate) struct Plan {
    // How many digits of D stand in front.
    pub leading: usize,
    // Zeros behind them, which fill the places before the point.
    pub filled: usize,
    // Whether a point follows. What stands below follows it.
    pub point: bool,
    // Zeros between the point and the other digits of D.
    pub gap: usize,
    // Zeros behind D.
    pub padding: usize,
}

// The length of the text that a plan makes of any D of so many digits.
pub(crate) fn plan_length(count: usize, plan: Plan) -> usize
    requires { (count ≤ 64) × Small count plan }
    ensures { ((D : List ℕ) (point : ℕ) → length D ≡ count → result ≡ length (plan_text point plan D)) × (result ≤ 8000) }
{
    let leading = plan.leading;
    let whole = leading + plan.filled;
    if plan.point {
        return whole + 1 + plan.gap + (count - leading) + plan.padding;
    }
    whole
}

// What stands from the point on.
fn put_fraction(buffer: &mut [u8], at: usize, digits: Digits, plan: Plan, point: u8) -> usize
    requires { Counted digits × Small digits.count plan × (at + length (fraction_text point plan (digits_of digits)) ≤ length buffer.old) }
    ensures { Puts buffer.old at (fraction_text point plan (digits_of digits)) result buffer.new }
{
    if plan.point {
        let gap = put_byte(buffer, at, point);
        let rest = put_zeros(buffer, gap, plan.gap);
        let count = digits.count - plan.leading;
        let padding = put_digits(buffer, rest, digits.value, digits.bits_per_digit, count);
        return put_zeros(buffer, padding, plan.padding);
    }
    at
}

// The text of a plan, at the front of the buffer.
pub(crate) fn put_plan(buffer: &mut [u8], digits: Digits, plan: Plan, point: u8) -> usize
    requires { Counted digits × Small digits.count plan × (length (plan_text point plan (digits_of digits)) ≤ length buffer.old) }
    ensures { Puts buffer.old 0 (plan_text point plan (digits_of digits)) result buffer.new }
{
    // The other digits are shifted out.
    let shift = digits.bits_per_digit as usize * (digits.count - plan.leading);
    let leading = digits.value >> shift;
    let filled = put_leading(buffer, 0, leading, digits.bits_per_digit, plan.leading);
    let fraction = put_zeros(buffer, filled, plan.filled);
    put_fraction(buffer, fraction, digits, plan, point)
}

// The length of a text that may have no room, and 0 for one that has: most buffers are longer than any text with so many zeros, since D, the point and the exponent come to at most 85 bytes, and for these nothing is measured.
fn length_against(
    room: usize,
    count: usize,
    plan: Plan,
    layout: Layout,
    exponent: BaseExponent,
    plus: bool,
    radix: u32,
    width: u32,
) -> usize
    requires { (count ≤ 64) × Small count plan × (is_radix radix ≡ true) × (is_width width ≡ true) × (exponent.1 < 8192) }
    ensures { (D : List ℕ) (point mark : ℕ) → length D ≡ count → Measured room (length (plan_text point plan D ++ tail_text layout mark exponent.0 plus radix width exponent.1)) result }
{
    if plan.filled + plan.gap + plan.padding + 85 <= room {
        return 0;
    }
    let tail = exponent_length(layout, exponent, plus, radix, width);
    plan_length(count, plan) + tail
}

// A planned text, and the exponent where the layout has one, written if there is room for it. The answer is its length either way.
pub(crate) fn write_plan(
    digits: Digits,
    plan: Plan,
    layout: Layout,
    exponent: BaseExponent,
    format: NumberFormat,
    options: Options,
    buffer: &mut [u8],
) -> usize
    requires { Counted digits × Small digits.count plan × (is_radix format.exponent_radix ≡ true) × (is_width options.exponent_width ≡ true) × (exponent.1 < 8192) }
    ensures value { result ≡ length (plan_text options.decimal_point plan (digits_of digits) ++ tail_text layout options.exponent exponent.0 format.required_exponent_sign format.exponent_radix options.exponent_width exponent.1) }
    ensures buffer_after { buffer.new ≡ held (done (plan_text options.decimal_point plan (digits_of digits) ++ tail_text layout options.exponent exponent.0 format.required_exponent_sign format.exponent_radix options.exponent_width exponent.1)) buffer.old }
{
    let plus = format.required_exponent_sign;
    let radix = format.exponent_radix;
    let width = options.exponent_width;
    let count = digits.count;
    let room = buffer.len();
    let length = length_against(room, count, plan, layout, exponent, plus, radix, width);
    if length > room {
        return length;
    }
    let mark = put_plan(buffer, digits, plan, options.decimal_point);
    write_exponent(
        buffer,
        mark,
        layout,
        options.exponent,
        exponent,
        plus,
        radix,
        width,
    )
}
