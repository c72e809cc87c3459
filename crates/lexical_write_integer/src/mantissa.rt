// Derived from `write_mantissa` of lexical-write-integer/src/write.rs, changed: as many digits as the caller asks for, so that none is moved to make room for the point, the radix by its bits, and refusals.
ghost use Rattle.std.specs.Prelude.{◌≡◌, ℕ, ◌-◌, ◌*◌, ◌^◌, ◌≤◌, ◌<◌, length};
ghost use Rattle.lexical_util.specs.Answer.{written, held, of_result};
ghost use Rattle.lexical_write_integer_spec.specs.Front.{Grows};
ghost use Rattle.lexical_write_integer_spec.specs.Write.{last_numeral, mantissa_text};

use crate::radix::radix_by_bits;
use lexical_exponent::quotient;
use lexical_util::{Reason, Refusal};

// Digits that no u64 reaches are zeros: they stand first, and behind them as many are left as a u64 may have. The float writer asks for none.
fn zeros_in_front(b: u32, count: usize, buffer: &mut [u8]) -> usize
    requires { (0 < b) × (b ≤ 5) × (count ≤ length buffer.old) }
    ensures upper_bound { (result ≤ count) × (b * (count - result - 1) < 64) }
    ensures by_index { (value : ℕ) → value < 2 ^ 64 → Grows (last_numeral (2 ^ b) count value) 0 result buffer.old buffer.new }
{
    let most = quotient(63, b) as usize + 1;
    let zeros = count.saturating_sub(most);
    for at in 0..zeros {
        buffer[at] = b'0';
    }
    zeros
}

// The last count digits of value in radix 2^bits_per_digit, leading zeros included; or a refusal, which leaves every byte as it was.
pub fn write_mantissa(
    value: u64,
    bits_per_digit: u32,
    count: usize,
    buffer: &mut [u8],
) -> Result<usize, Refusal>
    ensures result_value { of_result result ≡ written (mantissa_text value bits_per_digit count) buffer.old }
    ensures buffer_after { buffer.new ≡ held (mantissa_text value bits_per_digit count) buffer.old }
{
    if bits_per_digit == 0 || bits_per_digit > 5 {
        return Err(Reason::UnknownRadix.at(0));
    }
    if count > buffer.len() {
        return Err(Reason::NoRoom.at(0));
    }
    let from = zeros_in_front(bits_per_digit, count, buffer);
    radix_by_bits(value, bits_per_digit, count, from, buffer);
    Ok(count)
}
