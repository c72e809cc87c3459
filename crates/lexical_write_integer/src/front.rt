// Digits from the front: document 02, 2.4. A step adds one or two bytes to those so far; these are then the text's first, and the rest is as lent.
ghost use Rattle.std.specs.Prelude.{◌≡◌, ◌++◌, ◌+◌, ◌-◌, ◌*◌, ◌%◌, ◌^◌, ◌≤◌, ◌<◌, length, take, drop};
ghost use Rattle.lexical_util.specs.Digit.{digit_byte};
ghost use Rattle.lexical_write_integer_spec.specs.Write.{last_numeral};
ghost use Rattle.lexical_write_integer_spec.specs.Front.{begun, Grows};
ghost use Rattle.lexical_write_integer.specs.Table.{DigitTable, PairTable};

use crate::table::lent_char;

// The byte of a number's last digit in radix 2^b.
fn last_char(table: &[u8; 32], value: u64, b: u32) -> u8
    requires { DigitTable table.now × (b ≤ 5) }
    ensures { result ≡ digit_byte (value % 2 ^ b) }
{
    let mask = (1u64 << b) - 1;
    lent_char(table, (value & mask) as usize)
}

// A number's last two digits in radix 2^b, as one number.
fn last_pair(value: u64, b: u32) -> usize
    requires { b ≤ 5 }
    ensures { result ≡ value % 2 ^ (b + b) }
{
    let mask = (1u64 << (b + b)) - 1;
    (value & mask) as usize
}

// The step: of the last count digits of value in radix 2^b the first `at` stand, and one or two more are added. Both bytes are loaded before the first is stored, so that the compiler need not ask whether they overlap the table.
pub(crate) fn step_by_digits(
    table: &[u8; 32],
    value: u64,
    b: u32,
    count: usize,
    at: usize,
    digits: usize,
    buffer: &mut [u8],
) -> usize
    requires { DigitTable table.now × (0 < b) × (b ≤ 5) × (0 < digits) × (digits ≤ 2) × (at + digits ≤ count) × (b * (count - at - digits) < 64) × (count ≤ length buffer.old) }
    ensures value { result ≡ at + digits }
    ensures buffer_after { buffer.new ≡ take at buffer.old ++ begun (drop at (last_numeral (2 ^ b) count value)) digits (drop at buffer.old) }
    ensures grows { Grows (last_numeral (2 ^ b) count value) at result buffer.old buffer.new }
{
    let place = count - at - digits;
    let rest = value >> (b * place as u32);
    let last = last_char(table, rest, b);
    if digits == 1 {
        buffer[at] = last;
        return at + 1;
    }
    let first = last_char(table, rest >> b, b);
    buffer[at] = first;
    buffer[at + 1] = last;
    at + 2
}

// The step by a table of pairs, two digits at once.
pub(crate) fn step_by_pair(
    table: &[u8],
    value: u64,
    b: u32,
    count: usize,
    at: usize,
    buffer: &mut [u8],
) -> usize
    requires { PairTable b table.now × (0 < b) × (b ≤ 5) × (at + 2 ≤ count) × (b * (count - at - 2) < 64) × (count ≤ length buffer.old) }
    ensures value { result ≡ at + 2 }
    ensures buffer_after { buffer.new ≡ take at buffer.old ++ begun (drop at (last_numeral (2 ^ b) count value)) 2 (drop at buffer.old) }
    ensures grows { Grows (last_numeral (2 ^ b) count value) at result buffer.old buffer.new }
{
    let place = count - at - 2;
    let pair = last_pair(value >> (b * place as u32), b);
    let high = table[2 * pair];
    let low = table[2 * pair + 1];
    buffer[at] = high;
    buffer[at + 1] = low;
    at + 2
}
