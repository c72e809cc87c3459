// Derived from `significant_bits`, `fast_ceildiv`, `calculate_shl` and `scale_sci_exp` of lexical-write-float/src/binary.rs and hex.rs, changed: each exponent has a type of its own, and nothing wraps.
// Document 01: "An exponent in bits, one in digits and one in powers of the base are three separate counts". Only the functions here turn one into another.
ghost use Rattle.std.specs.Prelude.{◌≡◌, ◌+◌, ◌-◌, ◌*◌, ◌/◌, ◌%◌, ◌^◌, ◌≤◌, ◌<◌, min, pos, nat_abs, ◌+ℤ◌, ◌*ℤ◌, ◌≤ℤ◌, ◌<ℤ◌};
ghost use Rattle.std.specs.Int.Signed.{lt_z};
ghost use Rattle.lexical_exponent.specs.Exponent.{significant_bits, scale, LeadingBit, place, is_negative, power, modulo, zeros_behind_point, places_before_point, clamped, height_above, signed};

// In bits: e, s, or any exponent of two.
#[derive(Clone, Copy)]
pub struct BitExponent(pub i32);

// In digits: p, the place of a digit, or how many of them stand behind a point.
#[derive(Clone, Copy)]
pub struct DigitExponent(pub i32);

// In powers of the base, as a text has it: whether it is negative, and its magnitude.
#[derive(Clone, Copy)]
pub struct BaseExponent(pub bool, pub u64);

// A value mantissa * 2^exponent.
#[derive(Clone, Copy)]
pub struct Magnitude {
    pub mantissa: u64,
    pub exponent: BitExponent,
}

// The width less the leading zeros: the least number of bits that hold the value.
pub fn significant_bits(value: u64) -> u32
    ensures value { result ≡ significant_bits value }
    ensures bounds { (result ≤ 64) × (value < 2 ^ result) × (0 < value → 2 ^ (result - 1) ≤ value) }
{
    64 - u64::leading_zeros(value)
}

// An exponent in bits, of a number that may be past what 32 bits hold: there it is the end that the number is past. No float's exponent is.
fn clamped(value: i64) -> BitExponent
    ensures { result.0 ≡ clamped value }
{
    if value > 2147483647 {
        return BitExponent(2147483647);
    }
    if value < -2147483648 {
        return BitExponent(-2147483648);
    }
    BitExponent(value as i32)
}

// The exponent of a mantissa that lost so many low bits, or of a bit that stands so many above the lowest. The sum is taken at twice the width, where it has room.
pub fn raised(exponent: BitExponent, bits: u32) -> BitExponent
    ensures { result.0 ≡ clamped (exponent.0 +ℤ pos bits) }
{
    let from = exponent.0 as i64;
    let more = bits as i64;
    clamped(from + more)
}

// s: the exponent of the value's leading bit, and 0 for zero. What it says of the value holds wherever 32 bits hold s.
pub fn sci_exp(value: Magnitude) -> BitExponent
    ensures result_value { result.0 ≡ clamped (scale value.mantissa value.exponent.0) }
    ensures leading { 0 < value.mantissa → clamped (scale value.mantissa value.exponent.0) ≡ scale value.mantissa value.exponent.0 → LeadingBit value.mantissa value.exponent.0 result.0 }
{
    let bits = significant_bits(value.mantissa);
    if bits == 0 {
        return BitExponent(0);
    }
    let exponent = value.exponent;
    raised(exponent, bits - 1)
}

// The magnitude of a signed number, the least one's too.
pub fn unsigned_abs(value: i32) -> u32
    ensures { result ≡ nat_abs value }
{
    value.unsigned_abs()
}

// value / divisor, and 0 for a divisor of 0. Digits have 1 to 5 bits, and a quotient by a constant takes a fraction of the time of one by a variable.
pub fn quotient(value: u64, divisor: u32) -> u64
    ensures { result ≡ value / divisor }
{
    match divisor {
        0 => 0,
        1 => value,
        2 => value / 2,
        3 => value / 3,
        4 => value / 4,
        5 => value / 5,
        _ => value / divisor as u64,
    }
}

// value / base, rounded up. The sum is taken at twice the width, where it has room.
fn fast_ceildiv(value: u32, base: u32) -> u32
    requires { 0 < base }
    ensures enough { value ≤ result * base }
    ensures least { result * base < value + base }
{
    let more = base - 1;
    quotient(value as u64 + more as u64, base) as u32
}

// The place of a value's first digit: s / b toward minus infinity, so that of a negative s the magnitude is rounded up. No radix has digits of no bits; there the definition has -1 for a negative s, and else 0.
pub fn digit_exponent(s: BitExponent, bits_per_digit: u32) -> DigitExponent
    ensures result_value { result.0 ≡ place bits_per_digit s.0 }
    ensures floor { 0 < bits_per_digit → ((pos bits_per_digit *ℤ result.0) ≤ℤ s.0) × (s.0 <ℤ (pos bits_per_digit *ℤ (result.0 +ℤ pos 1))) }
{
    let bits = s.0;
    let magnitude = unsigned_abs(bits);
    if bits < 0 {
        if bits_per_digit == 0 {
            return DigitExponent(-1);
        }
        let digits = fast_ceildiv(magnitude, bits_per_digit);
        return DigitExponent((0 - digits as i64) as i32);
    }
    if bits_per_digit == 0 {
        return DigitExponent(0);
    }
    DigitExponent(quotient(magnitude as u64, bits_per_digit) as i32)
}

// The exponent that a text has for a place: p * b / c, which is whole where c divides b, as in every pair. The product is taken at twice the width, where it has room. No base has no bits; there the definition has 0.
pub fn base_exponent(p: DigitExponent, bits_per_digit: u32, bits_per_base: u32) -> BaseExponent
    ensures sign { result.0 ≡ is_negative p.0 }
    ensures magnitude { result.1 ≡ power bits_per_digit bits_per_base p.0 }
    ensures exact { bits_per_digit / bits_per_base * bits_per_base ≡ bits_per_digit → result.1 * bits_per_base ≡ nat_abs p.0 * bits_per_digit }
{
    let digits = p.0;
    let negative = digits < 0;
    if bits_per_base == 0 {
        return BaseExponent(negative, 0);
    }
    let bits = unsigned_abs(digits) as u64 * bits_per_digit as u64;
    BaseExponent(negative, quotient(bits, bits_per_base))
}

// What a division leaves: all of the value where the divisor is 0.
fn remainder(value: u32, divisor: u32) -> u32
    ensures { (result ≡ value % divisor) × (0 < divisor → result < divisor) }
{
    value - divisor * quotient(value as u64, divisor) as u32
}

// e mod b: by how many bits a mantissa is shifted up so that its exponent is a whole number of digits. No radix has digits of no bits; there the definition has 0 for a negative e, and else e.
pub fn calculate_shl(exponent: BitExponent, bits_per_digit: u32) -> u32
    ensures value { result ≡ modulo exponent.0 bits_per_digit }
    ensures below { 0 < bits_per_digit → result < bits_per_digit }
{
    let e = exponent.0;
    let magnitude = unsigned_abs(e);
    if e < 0 {
        if bits_per_digit == 0 {
            return 0;
        }
        // The remainder of -1 - e, counted from the other end.
        let last = bits_per_digit - 1;
        let rest = remainder(magnitude - 1, bits_per_digit);
        return last - rest;
    }
    remainder(magnitude, bits_per_digit)
}

// The zeros between the point and the first digit of a value below 1: of |p| places behind the point the last is that digit's.
pub fn zeros_behind_point(p: DigitExponent) -> usize
    ensures { result ≡ zeros_behind_point p.0 }
{
    let places = unsigned_abs(p.0) as usize;
    if places == 0 { 0 } else { places - 1 }
}

// The places before the point of a value from 1 on, the one at p and all below it.
pub fn places_before_point(p: DigitExponent) -> usize
    ensures { result ≡ places_before_point p.0 }
{
    unsigned_abs(p.0) as usize + 1
}

// Whether an exponent is below another, both in bits.
pub fn is_below(exponent: BitExponent, other: BitExponent) -> bool
    ensures { result ≡ lt_z exponent.0 other.0 }
{
    exponent.0 < other.0
}

// How many bits an exponent stands above another, and 0 where it does not. The difference is taken at twice the width, where it has room.
pub fn height_above(exponent: BitExponent, other: BitExponent) -> u32
    ensures { result ≡ height_above exponent.0 other.0 }
{
    let upper = exponent.0;
    let lower = other.0;
    if upper < lower {
        return 0;
    }
    (upper as i64 - lower as i64) as u32
}

// An exponent in digits, in bits: p * b. The product is taken at twice the width, where it has room.
pub fn digits_in_bits(p: DigitExponent, bits_per_digit: u32) -> BitExponent
    ensures { result.0 ≡ clamped (pos bits_per_digit *ℤ p.0) }
{
    let bits = bits_per_digit as i64;
    let digits = p.0 as i64;
    clamped(bits * digits)
}

// The least of a number and 2^31. So many powers of the base, or more, are past what 32 bits hold, however many.
fn at_most_past(powers: u64) -> u64
    ensures { result ≡ min powers 2147483648 }
{
    if powers > 2147483648 {
        2147483648
    } else {
        powers
    }
}

// An exponent in powers of the base, in bits: its magnitude times c, with its sign.
pub fn powers_in_bits(exponent: BaseExponent, bits_per_base: u32) -> BitExponent
    ensures { result.0 ≡ clamped (pos bits_per_base *ℤ signed exponent.0 exponent.1) }
{
    let powers = at_most_past(exponent.1);
    let bits = bits_per_base as u64 * powers;
    if exponent.0 {
        return clamped(0 - bits as i64);
    }
    clamped(bits as i64)
}
