// The digits of a number, put into a buffer from a place on.
ghost use Rattle.std.specs.Prelude.{◌≡◌, ◌≤◌, ◌<◌};
ghost use Rattle.lexical_write_integer_spec.specs.Write.{digits_text};
ghost use Rattle.lexical_buffer.specs.Put.{next_place, held_from};

use crate::bytes::{lies_within, put_byte};
use lexical_util::is_radix;
use lexical_write_integer::{digit_byte, write_integer};

// By the digits call, which is lent the part from the place on.
fn put_integer(buffer: &mut [u8], at: usize, value: u64, radix: u32, width: u32) -> usize
    ensures value { result ≡ next_place at (digits_text value radix width) buffer.old }
    ensures buffer_after { buffer.new ≡ held_from at (digits_text value radix width) buffer.old }
{
    if buffer.len() < at {
        return at;
    }
    match write_integer(value, radix, width, &mut buffer[at..]) {
        Ok(count) => at + count,
        Err(_) => at,
    }
}

// A value of two decimal digits.
fn put_two_digits(buffer: &mut [u8], at: usize, value: u64) -> usize
    requires { (10 ≤ value) × (value < 100) }
    ensures value { result ≡ next_place at (digits_text value 10 1) buffer.old }
    ensures buffer_after { buffer.new ≡ held_from at (digits_text value 10 1) buffer.old }
{
    let first = digit_byte(value / 10);
    let last = digit_byte(value % 10);
    if lies_within(buffer.len(), at, 2) {
        buffer[at] = first;
        buffer[at + 1] = last;
        return at + 2;
    }
    at
}

fn put_decimal(buffer: &mut [u8], at: usize, value: u64) -> usize
    ensures value { result ≡ next_place at (digits_text value 10 1) buffer.old }
    ensures buffer_after { buffer.new ≡ held_from at (digits_text value 10 1) buffer.old }
{
    if value < 10 {
        let byte = digit_byte(value);
        return put_byte(buffer, at, byte);
    }
    if value < 100 {
        return put_two_digits(buffer, at, value);
    }
    put_integer(buffer, at, value, 10, 1)
}

// Without zeros in front. One digit, or two decimal ones, as most exponents have, are bytes and no call.
fn put_without_zeros(buffer: &mut [u8], at: usize, value: u64, radix: u32) -> usize
    ensures value { result ≡ next_place at (digits_text value radix 1) buffer.old }
    ensures buffer_after { buffer.new ≡ held_from at (digits_text value radix 1) buffer.old }
{
    if radix == 10 {
        return put_decimal(buffer, at, value);
    }
    if value < radix as u64 {
        if is_radix(radix) {
            let byte = digit_byte(value);
            return put_byte(buffer, at, byte);
        }
    }
    put_integer(buffer, at, value, radix, 1)
}

// The digits of value, with zeros in front up to the least width.
pub fn put_number(buffer: &mut [u8], at: usize, value: u64, radix: u32, width: u32) -> usize
    ensures value { result ≡ next_place at (digits_text value radix width) buffer.old }
    ensures buffer_after { buffer.new ≡ held_from at (digits_text value radix width) buffer.old }
{
    if width == 1 {
        return put_without_zeros(buffer, at, value, radix);
    }
    put_integer(buffer, at, value, radix, width)
}
