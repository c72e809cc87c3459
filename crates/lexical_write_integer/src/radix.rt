// Derived from lexical-write-integer/src/radix.rs, changed: shifts and a mask, the count given, and the leading digit first, one or two a step.
ghost use Rattle.std.specs.Prelude.{◌≡◌, ◌-◌, ◌*◌, ◌%◌, ◌^◌, ◌≤◌, ◌<◌, length};
ghost use Rattle.lexical_write_integer_spec.specs.Write.{last_numeral};
ghost use Rattle.lexical_write_integer_spec.specs.Front.{Grows};
ghost use Rattle.lexical_write_integer.specs.Table.{PairTable};

use crate::front::{step_by_digits, step_by_pair};
use crate::table::{DIGIT_TO_BASE2_SQUARED, DIGIT_TO_BASE32_SQUARED, DIGIT_TO_CHAR};

// The first step: one digit where an odd number is left, so that all others go by two.
fn odd_digit(value: u64, b: u32, count: usize, from: usize, buffer: &mut [u8]) -> usize
    requires { (0 < b) × (b ≤ 5) × (from ≤ count) × (b * (count - from - 1) < 64) × (count ≤ length buffer.old) }
    ensures place { (from ≤ result) × (result ≤ count) × ((count - result) % 2 ≡ 0) }
    ensures grows { Grows (last_numeral (2 ^ b) count value) from result buffer.old buffer.new }
{
    if (count - from) % 2 == 1 {
        return step_by_digits(&DIGIT_TO_CHAR, value, b, count, from, 1, buffer);
    }
    from
}

// From so many digits on to the last, two a step. A `while`, here and below: `for at in (from..count).step_by(2)` is proved as well, and takes 24 instructions more of 310 for a number.
fn radix(value: u64, b: u32, count: usize, from: usize, buffer: &mut [u8])
    requires { (0 < b) × (b ≤ 5) × (from ≤ count) × ((count - from) % 2 ≡ 0) × (b * (count - from - 1) < 64) × (count ≤ length buffer.old) }
    ensures { Grows (last_numeral (2 ^ b) count value) from count buffer.old buffer.new }
{
    let table = &DIGIT_TO_CHAR;
    let mut at = from;
    while at < count {
        at = step_by_digits(table, value, b, count, at, 2, buffer);
    }
}

// The same from a table of pairs.
fn radix_pairs(table: &[u8], value: u64, b: u32, count: usize, from: usize, buffer: &mut [u8])
    requires { PairTable b table.now × (0 < b) × (b ≤ 5) × (from ≤ count) × ((count - from) % 2 ≡ 0) × (b * (count - from - 1) < 64) × (count ≤ length buffer.old) }
    ensures { Grows (last_numeral (2 ^ b) count value) from count buffer.old buffer.new }
{
    let mut at = from;
    while at < count {
        at = step_by_pair(table, value, b, count, at, buffer);
    }
}

// The same in radix 32. Where nothing is left its table is not named: a call that names it builds it first.
fn radix_32(value: u64, count: usize, from: usize, buffer: &mut [u8])
    requires { (from ≤ count) × ((count - from) % 2 ≡ 0) × (5 * (count - from - 1) < 64) × (count ≤ length buffer.old) }
    ensures { Grows (last_numeral 32 count value) from count buffer.old buffer.new }
{
    if from < count {
        radix_pairs(&DIGIT_TO_BASE32_SQUARED, value, 5, count, from, buffer);
    }
}

// From so many digits on to the last. Two calls come here, so that the compiler keeps it apart: within the float writer it would take the registers of all else.
pub(crate) fn radix_by_bits(value: u64, b: u32, count: usize, from: usize, buffer: &mut [u8])
    requires { (0 < b) × (b ≤ 5) × (from ≤ count) × (b * (count - from - 1) < 64) × (count ≤ length buffer.old) }
    ensures { Grows (last_numeral (2 ^ b) count value) from count buffer.old buffer.new }
{
    let at = odd_digit(value, b, count, from, buffer);
    match b {
        1 => radix_pairs(&DIGIT_TO_BASE2_SQUARED, value, 1, count, at, buffer),
        5 => radix_32(value, count, at, buffer),
        _ => radix(value, b, count, at, buffer),
    }
}
