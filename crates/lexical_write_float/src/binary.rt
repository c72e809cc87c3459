// Derived from lexical-write-float/src/binary.rs, changed: the unit of a digit limit is aligned with the digits; a value comes back in normal form, so that a carry needs no count of its own; and a layout answers a plan, which is measured before it is written.
ghost use Rattle.std.specs.Prelude.{◌≡◌, ℕ, ◌+◌, ◌-◌, ◌*◌, ◌^◌, ◌≤◌, ◌<◌, List, nat_abs};
ghost use Rattle.lexical_exponent.specs.Exponent.{modulo};
ghost use Rattle.lexical_write_float_spec.specs.Value.{normal};
ghost use Rattle.lexical_write_float_spec.specs.Limit.{rounded, limited};
ghost use Rattle.lexical_write_float_spec.specs.Range.{Between};
ghost use Rattle.lexical_write_float.specs.Code.{of_magnitude, IsPlan};
ghost use Rattle.lexical_format.specs.declared.format.NumberFormat.{NumberFormat};
ghost use Rattle.lexical_write_float_spec.specs.Text.{point, negative, positive};
ghost use Rattle.lexical_format.specs.Format.{most_count};

use crate::plan::Plan;
use crate::shared::missing_digits;
use lexical_exponent::{
    BitExponent, DigitExponent, Magnitude, calculate_shl, digits_in_bits, height_above, raised,
    sci_exp, significant_bits, zeros_behind_point,
};
use lexical_format::{Options, RoundMode};

// The normal form of a value: the mantissa odd, or both zero.
pub(crate) fn normalized(value: Magnitude) -> Magnitude
    requires { Between 8000 8000 value.exponent.0 }
    ensures { of_magnitude result ≡ normal value.mantissa value.exponent.0 }
{
    let mantissa = value.mantissa;
    if mantissa == 0 {
        return Magnitude {
            mantissa: 0,
            exponent: BitExponent(0),
        };
    }
    let zeros = u64::trailing_zeros(mantissa);
    let odd = mantissa >> zeros;
    let exponent = value.exponent;
    Magnitude {
        mantissa: odd,
        exponent: raised(exponent, zeros),
    }
}

// The mantissa as a number of units of 2^cut: the nearest, a tie to the even one, or the greatest not above it.
fn round_to_units(mantissa: u64, cut: u32, mode: RoundMode) -> u64
    requires { (mantissa < 2 ^ 60) × (cut < 60) }
    ensures { result ≡ rounded mode mantissa (2 ^ cut) }
{
    let unit = 1u64 << cut;
    let whole = mantissa >> cut;
    let next = whole + 1;
    let twice = (mantissa & (unit - 1)) * 2;
    match mode {
        RoundMode::Truncate => whole,
        RoundMode::Round => {
            if twice < unit {
                return whole;
            }
            if twice == unit {
                return whole + whole % 2;
            }
            next
        }
    }
}

// Of the bits below the leading one, how many stand in the first `digits` digits: the first digit has s mod b of them.
fn kept_bits(s: BitExponent, bits_per_digit: u32, digits: u32) -> u32
    requires { (0 < bits_per_digit) × (bits_per_digit ≤ 5) × (0 < digits) × (digits ≤ most_count) }
    ensures { result ≡ bits_per_digit * (digits - 1) + modulo s.0 bits_per_digit }
{
    let first = calculate_shl(s, bits_per_digit);
    let count = digits - 1;
    let others = digits_in_bits(DigitExponent(count as i32), bits_per_digit);
    height_above(others, BitExponent(0)) + first
}

// At most `digits` digits, 0 no limit: document 01, "Digit limit".
pub(crate) fn truncate_and_round(
    value: Magnitude,
    bits_per_digit: u32,
    digits: u32,
    mode: RoundMode,
) -> Magnitude
    requires { (value.mantissa < 2 ^ 60) × Between 4000 4000 value.exponent.0 × (0 < bits_per_digit) × (bits_per_digit ≤ 5) × (digits ≤ most_count) }
    ensures { of_magnitude result ≡ limited mode bits_per_digit digits value.mantissa value.exponent.0 }
{
    let mantissa = value.mantissa;
    if digits == 0 {
        return value;
    }
    if mantissa == 0 {
        return value;
    }
    let s = sci_exp(value);
    let keep = kept_bits(s, bits_per_digit, digits);
    let below = significant_bits(mantissa) - 1;
    if below <= keep {
        return normalized(value);
    }
    let cut = below - keep;
    let units = round_to_units(mantissa, cut, mode);
    let exponent = value.exponent;
    normalized(Magnitude {
        mantissa: units,
        exponent: raised(exponent, cut),
    })
}

// "0", point, -p-1 zeros, D, zeros up to the least count. Trim does nothing.
pub(crate) fn write_float_negative_exponent(
    count: usize,
    p: DigitExponent,
    options: Options,
) -> Plan
    requires { (nat_abs p.0 ≤ 1074) × (options.min_significant_digits ≤ most_count) }
    ensures { (F : NumberFormat) → IsPlan (point F options) count (λ (D : List ℕ). negative F options D p.0) result }
{
    Plan {
        leading: 0,
        filled: 1,
        point: true,
        gap: zeros_behind_point(p),
        padding: missing_digits(options.min_significant_digits, count),
    }
}

// p+1 places before the point. A D that fills them and more has the point after them; else zeros fill them, and ".0" follows unless it is trimmed.
pub(crate) fn write_float_positive_exponent(
    count: usize,
    places: usize,
    digits_so_far: usize,
    options: Options,
) -> Plan
    requires { (places ≤ 1075) × (options.min_significant_digits ≤ most_count) }
    ensures { (F : NumberFormat) → IsPlan (point F options) count (λ (D : List ℕ). positive F options D places digits_so_far) result }
{
    let least = options.min_significant_digits;
    if places < count {
        return Plan {
            leading: places,
            filled: 0,
            point: true,
            gap: 0,
            padding: missing_digits(least, count),
        };
    }
    let filled = places - count;
    if options.trim_floats {
        return Plan {
            leading: count,
            filled,
            point: false,
            gap: 0,
            padding: 0,
        };
    }
    Plan {
        leading: count,
        filled,
        point: true,
        gap: 0,
        padding: 1 + missing_digits(least, digits_so_far),
    }
}
