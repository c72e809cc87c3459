// Derived from lexical-write-integer/src/digit_count.rs, changed: u64 alone, the radix by its bits, and the significant bits over them, rounded up (document 02, 2.4), instead of a logarithm.
ghost use Rattle.std.specs.Prelude.{◌≡◌, max};
ghost use Rattle.lexical_write_integer_spec.specs.Write.{digit_count, digit_log};

use crate::decimal::decimal_count;
use lexical_exponent::{quotient, significant_bits};
use lexical_util::digit_bits;

// A count, or the least width where that is greater.
fn at_least(width: u32, count: usize) -> usize
    ensures { result ≡ max width count }
{
    let least = width as usize;
    if count < least { least } else { count }
}

// How many digits value has in radix 2^bits_per_digit: its significant bits over those of a digit, rounded up, and at least 1; and 0 where a digit has no bits.
pub fn digit_log(value: u64, bits_per_digit: u32) -> usize
    ensures { result ≡ digit_log value bits_per_digit }
{
    if bits_per_digit == 0 {
        return 0;
    }
    let bits = significant_bits(value);
    let more = bits_per_digit - 1;
    let digits = quotient(bits as u64 + more as u64, bits_per_digit);
    at_least(1, digits as usize)
}

// How many digits value has in a radix, at least the width, and 0 in a number that is no radix.
pub fn digit_count(value: u64, radix: u32, width: u32) -> usize
    ensures { result ≡ digit_count value radix width }
{
    if radix == 10 {
        at_least(width, decimal_count(value))
    } else if lexical_util::is_radix(radix) {
        at_least(width, digit_log(value, digit_bits(radix)))
    } else {
        0
    }
}
