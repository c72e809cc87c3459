// Derived from `min_exact_digits`, `write_exponent_sign`, `write_exponent` and `write_float!` of lexical-write-float/src/shared.rs, changed: the layout is one answer, the zeros that are missing are counted instead of the digits that there are to be, and an exponent's length is known before it is written.
ghost use Rattle.std.specs.Prelude.{◌≡◌, true, ℕ, ◌+◌, ◌-◌, ◌≤◌, ◌<◌, length};
ghost use Rattle.lexical_util.specs.Digit.{is_radix, is_width};
ghost use Rattle.lexical_write_float_spec.specs.Text.{is_scientific, layout_of};
ghost use Rattle.lexical_format.specs.declared.options.Options.{Options};
ghost use Rattle.lexical_format.specs.Format.{low_break, high_break};
ghost use Rattle.lexical_buffer.specs.Put.{Puts};
ghost use Rattle.lexical_write_float.specs.Code.{sign_text, tail_text};

use lexical_buffer::{put_byte, put_number};
use lexical_exponent::{BaseExponent, BitExponent, is_below};
use lexical_format::{CheckedFormat, NumberFormat};
use lexical_write_float_spec::Layout;

// How many zeros fill `count` digits up to the least count.
pub(crate) fn missing_digits(least: u32, count: usize) -> usize
    ensures { result ≡ least - count }
{
    let wanted = least as usize;
    if count < wanted { wanted - count } else { 0 }
}

// Scientific if not forbidden and (required, or s below the low break, or above the high one). The breaks are in bits, as s is.
fn is_scientific(format: NumberFormat, checked: CheckedFormat, s: BitExponent) -> bool
    ensures { (o : Options) → checked.negative_exponent_break.0 ≡ low_break o → checked.positive_exponent_break.0 ≡ high_break o → result ≡ is_scientific format o s.0 }
{
    if format.no_exponent_notation {
        return false;
    }
    if format.required_exponent_notation {
        return true;
    }
    let low = checked.negative_exponent_break;
    let high = checked.positive_exponent_break;
    lexical_format::outside(low, high, s)
}

// The layout of a text, in place of the macro `write_float!`.
pub(crate) fn choose_layout(format: NumberFormat, checked: CheckedFormat, s: BitExponent) -> Layout
    ensures { (o : Options) → checked.negative_exponent_break.0 ≡ low_break o → checked.positive_exponent_break.0 ≡ high_break o → result ≡ layout_of format o s.0 }
{
    if is_scientific(format, checked, s) {
        return Layout::Scientific;
    }
    if is_below(s, BitExponent(0)) {
        return Layout::Negative;
    }
    Layout::Positive
}

// "-" if negative, "+" if that flag is set.
fn write_exponent_sign(buffer: &mut [u8], at: usize, negative: bool, plus: bool) -> usize
    requires { at + length (sign_text negative plus) ≤ length buffer.old }
    ensures { Puts buffer.old at (sign_text negative plus) result buffer.new }
{
    if negative {
        return put_byte(buffer, at, b'-');
    }
    if plus {
        return put_byte(buffer, at, b'+');
    }
    at
}

fn sign_length(negative: bool, plus: bool) -> usize
    ensures { (result ≡ length (sign_text negative plus)) × (result ≤ 1) }
{
    if negative {
        return 1;
    }
    if plus {
        return 1;
    }
    0
}

// The length of an exponent's text, whatever the mark; only the scientific layout has one.
pub(crate) fn exponent_length(
    layout: Layout,
    exponent: BaseExponent,
    plus: bool,
    radix: u32,
    width: u32,
) -> usize
    requires { (is_radix radix ≡ true) × (is_width width ≡ true) × (exponent.1 < 8192) }
    ensures { ((mark : ℕ) → result ≡ length (tail_text layout mark exponent.0 plus radix width exponent.1)) × (result ≤ 20) }
{
    match layout {
        Layout::Scientific => {
            let sign = sign_length(exponent.0, plus);
            1 + sign + lexical_write_integer::digit_count(exponent.1, radix, width)
        }
        Layout::Negative => 0,
        Layout::Positive => 0,
    }
}

// Mark, sign, and the magnitude in the exponent's radix and width, in the scientific layout.
pub(crate) fn write_exponent(
    buffer: &mut [u8],
    at: usize,
    layout: Layout,
    mark: u8,
    exponent: BaseExponent,
    plus: bool,
    radix: u32,
    width: u32,
) -> usize
    requires { (is_radix radix ≡ true) × (is_width width ≡ true) × (at + length (tail_text layout mark exponent.0 plus radix width exponent.1) ≤ length buffer.old) }
    ensures { Puts buffer.old at (tail_text layout mark exponent.0 plus radix width exponent.1) result buffer.new }
{
    match layout {
        Layout::Scientific => {
            let sign = put_byte(buffer, at, mark);
            let magnitude = write_exponent_sign(buffer, sign, exponent.0, plus);
            put_number(buffer, magnitude, exponent.1, radix, width)
        }
        Layout::Negative => at,
        Layout::Positive => at,
    }
}
