// A step of the digits call by itself, for a tool that follows the digits as they come: document 02, 2.4.
ghost use Rattle.std.specs.Prelude.{◌≡◌, ◌++◌, ◌+◌, ◌-◌, ◌*◌, ◌^◌, ◌≤◌, ◌<◌, length, take, drop};
ghost use Rattle.lexical_util.specs.Answer.{of_result};
ghost use Rattle.lexical_write_integer_spec.specs.Front.{begun, step_length, steps_text, step_written, step_held, StepAdds};
ghost use Rattle.lexical_write_integer_spec.specs.Write.{last_numeral};

use crate::count::digit_count;
use crate::front::{step_by_digits, step_by_pair};
use crate::table::{DIGIT_TO_BASE2_SQUARED, DIGIT_TO_BASE32_SQUARED, DIGIT_TO_CHAR};
use lexical_util::{Reason, Refusal, digit_bits};

// One digit where an odd number is left, else two, by the very step of the radix's loop.
fn step_of_radix(value: u64, b: u32, count: usize, at: usize, buffer: &mut [u8]) -> usize
    requires { (0 < b) × (b ≤ 5) × (at < count) × (b * (count - 1) < 64) × (count ≤ length buffer.old) }
    ensures value { result ≡ at + step_length (count - at) }
    ensures buffer_after { buffer.new ≡ take at buffer.old ++ begun (drop at (last_numeral (2 ^ b) count value)) (step_length (count - at)) (drop at buffer.old) }
{
    if (count - at) % 2 == 1 {
        return step_by_digits(&DIGIT_TO_CHAR, value, b, count, at, 1, buffer);
    }
    match b {
        1 => step_by_pair(&DIGIT_TO_BASE2_SQUARED, value, 1, count, at, buffer),
        5 => step_by_pair(&DIGIT_TO_BASE32_SQUARED, value, 5, count, at, buffer),
        _ => step_by_digits(&DIGIT_TO_CHAR, value, b, count, at, 2, buffer),
    }
}

// Of the digits of value in the radix the first `at` stand at the front of the buffer: the next one or two are added, and the answer is how many stand then. Where all stand, nothing is added. A refusal leaves every byte as it was.
pub fn write_step(
    value: u64,
    radix: u32,
    width: u32,
    at: usize,
    buffer: &mut [u8],
) -> Result<usize, Refusal>
    ensures result_value { of_result result ≡ step_written (steps_text value radix width) at buffer.old }
    ensures buffer_after { buffer.new ≡ step_held (steps_text value radix width) at buffer.old }
    ensures adds { StepAdds (steps_text value radix width) at buffer.old (of_result result) buffer.new }
{
    if !lexical_util::is_radix(radix) {
        return Err(Reason::UnknownRadix.at(0));
    }
    if radix == 10 {
        return Err(Reason::UnknownRadix.at(0));
    }
    if !lexical_util::is_width(width) {
        return Err(Reason::BadWidth.at(0));
    }
    let count = digit_count(value, radix, width);
    if count > buffer.len() {
        return Err(Reason::NoRoom.at(0));
    }
    if count <= at {
        return Ok(at);
    }
    Ok(step_of_radix(value, digit_bits(radix), count, at, buffer))
}
