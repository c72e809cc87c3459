// Zeros and digits of a text, put into a buffer from a place on, where there is room for them. Each answers the next place.
ghost use Rattle.std.specs.Prelude.{◌+◌, ◌^◌, ◌≤◌, ◌<◌, length};
ghost use Rattle.lexical_write_integer_spec.specs.Write.{last_numeral};
ghost use Rattle.lexical_write_float_spec.specs.Text.{zeros};
ghost use Rattle.lexical_buffer.specs.Put.{Puts};

use lexical_buffer::put_byte;

pub(crate) fn put_zeros(buffer: &mut [u8], at: usize, count: usize) -> usize
    requires { at + count ≤ length buffer.old }
    ensures { Puts buffer.old at (zeros count) result buffer.new }
{
    for byte in &mut buffer[at..at + count] {
        *byte = b'0';
    }
    at + count
}

// The last count digits of value, of so many bits each.
pub(crate) fn put_digits(
    buffer: &mut [u8],
    at: usize,
    value: u64,
    bits_per_digit: u32,
    count: usize,
) -> usize
    requires { (0 < bits_per_digit) × (bits_per_digit ≤ 5) × (at + count ≤ length buffer.old) }
    ensures { Puts buffer.old at (last_numeral (2 ^ bits_per_digit) count value) result buffer.new }
{
    let written = lexical_write_integer::write_mantissa(
        value,
        bits_per_digit,
        count,
        &mut buffer[at..],
    );
    match written {
        Ok(count) => at + count,
        Err(_) => at,
    }
}

// The same where often one digit is asked for, as in front of the point: one byte, and no loop.
pub(crate) fn put_leading(
    buffer: &mut [u8],
    at: usize,
    value: u64,
    bits_per_digit: u32,
    count: usize,
) -> usize
    requires { (0 < bits_per_digit) × (bits_per_digit ≤ 5) × (at + count ≤ length buffer.old) }
    ensures { Puts buffer.old at (last_numeral (2 ^ bits_per_digit) count value) result buffer.new }
{
    if count == 1 {
        let mask = (1u64 << bits_per_digit) - 1;
        let byte = lexical_write_integer::digit_byte(value & mask);
        return put_byte(buffer, at, byte);
    }
    put_digits(buffer, at, value, bits_per_digit, count)
}
