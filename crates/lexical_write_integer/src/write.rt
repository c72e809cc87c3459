// Derived from lexical-write-integer/src/write.rs, changed: radix and least width are arguments, and refusals stand for assertions.
ghost use Rattle.std.specs.Prelude.{◌≡◌, true, ◌-◌, ◌*◌, ◌≤◌, ◌<◌, length};
ghost use Rattle.lexical_util.specs.Answer.{written, held, of_result};
ghost use Rattle.lexical_util.specs.Digit.{is_radix, digit_bits};
ghost use Rattle.lexical_write_integer_spec.specs.Front.{begun};
ghost use Rattle.lexical_write_integer_spec.specs.Write.{last_numeral, digits_text};

use crate::count::digit_count;
use crate::decimal::decimal;
use crate::radix::radix_by_bits;
use lexical_util::{Reason, Refusal, digit_bits};

// The last count digits of value by the loop of the radix.
fn write_digits(value: u64, base: u32, count: usize, buffer: &mut [u8])
    requires { (is_radix base ≡ true) × (digit_bits base * (count - 1) < 64) × (count ≤ length buffer.old) }
    ensures { buffer.new ≡ begun (last_numeral base count value) count buffer.old }
{
    if base == 10 {
        decimal(value, count, buffer);
    } else {
        radix_by_bits(value, digit_bits(base), count, 0, buffer);
    }
}

// The digits of value in the radix, with zeros in front up to the least width; or a refusal, which leaves every byte as it was.
pub fn write_integer(
    value: u64,
    radix: u32,
    width: u32,
    buffer: &mut [u8],
) -> Result<usize, Refusal>
    ensures result_value { of_result result ≡ written (digits_text value radix width) buffer.old }
    ensures buffer_after { buffer.new ≡ held (digits_text value radix width) buffer.old }
{
    if !lexical_util::is_radix(radix) {
        return Err(Reason::UnknownRadix.at(0));
    }
    if !lexical_util::is_width(width) {
        return Err(Reason::BadWidth.at(0));
    }
    let count = digit_count(value, radix, width);
    if count > buffer.len() {
        return Err(Reason::NoRoom.at(0));
    }
    write_digits(value, radix, count, buffer);
    Ok(count)
}
