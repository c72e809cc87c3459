// Derived from lexical-write-integer/src/decimal.rs, changed: plain division instead of jeaiii, and no spare bytes.
ghost use Rattle.std.specs.Prelude.{◌≡◌, ◌++◌, ◌≤◌, length, drop};
ghost use Rattle.lexical_write_integer_spec.specs.Digits.{digits};
ghost use Rattle.lexical_write_integer_spec.specs.Write.{last_numeral};

use crate::table::digit_to_char;

// How many decimal digits value has. A `while`, since it counts divisions and no index.
pub(crate) fn decimal_count(value: u64) -> usize
    ensures { result ≡ length (digits 10 value) }
{
    let mut count: usize = 1;
    let mut v = value;
    while 10 <= v {
        v = v / 10;
        count += 1;
    }
    count
}

// The last count decimal digits of value, leading zeros included, at the front of the buffer, from the back.
pub(crate) fn decimal(value: u64, count: usize, buffer: &mut [u8])
    requires { count ≤ length buffer.old }
    ensures { buffer.new ≡ last_numeral 10 count value ++ drop count buffer.old }
{
    let mut v = value;
    for i in (0..count).rev() {
        buffer[i] = digit_to_char((v % 10) as u8);
        v = v / 10;
    }
}
