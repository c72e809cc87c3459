// Digits of a number; a float's text written and read. A call for each width, since C has no generic ones.
ghost use Rattle.std.specs.Prelude.{◌≡◌};
ghost use Rattle.std.specs.Float.{binary32, binary64};
ghost use Rattle.lexical_util.specs.Answer.{written, held};
ghost use Rattle.lexical_write_integer_spec.specs.Write.{digits_text};
ghost use Rattle.lexical_write_float_spec.specs.Write.{write_text};
ghost use Rattle.lexical_read_float_spec.specs.Read.{read_float};
ghost use Rattle.export_structs.specs.Structs.{number_format_of, options_of, answer_of, answer_f64_of, answer_f32_of};

use export_structs::{Answer, AnswerF32, AnswerF64, Format};

#[unsafe(no_mangle)]
pub extern "C" fn lexical_write_integer(
    value: u64,
    radix: u32,
    width: u32,
    buffer: &mut [u8],
) -> Answer
    ensures value { result ≡ answer_of (written (digits_text value radix width) buffer.old) }
    ensures buffer_after { buffer.new ≡ held (digits_text value radix width) buffer.old }
{
    lexical_write_integer::write_integer(value, radix, width, buffer).into()
}

#[unsafe(no_mangle)]
pub extern "C" fn lexical_write_f64(x: f64, format: Format, buffer: &mut [u8]) -> Answer
    ensures value { result ≡ answer_of (written (write_text (number_format_of format) (options_of format) x) buffer.old) }
    ensures buffer_after { buffer.new ≡ held (write_text (number_format_of format) (options_of format) x) buffer.old }
{
    lexical_write_float::write_float::<f64>(x, format.into(), format.into(), buffer).into()
}

#[unsafe(no_mangle)]
pub extern "C" fn lexical_write_f32(x: f32, format: Format, buffer: &mut [u8]) -> Answer
    ensures value { result ≡ answer_of (written (write_text (number_format_of format) (options_of format) x) buffer.old) }
    ensures buffer_after { buffer.new ≡ held (write_text (number_format_of format) (options_of format) x) buffer.old }
{
    lexical_write_float::write_float::<f32>(x, format.into(), format.into(), buffer).into()
}

#[unsafe(no_mangle)]
pub extern "C" fn lexical_read_f64(text: &[u8], format: Format) -> AnswerF64
    ensures { result ≡ answer_f64_of (read_float binary64 (number_format_of format) (options_of format) text.now) }
{
    lexical_read_float::read_float::<f64>(text, format.into(), format.into()).into()
}

#[unsafe(no_mangle)]
pub extern "C" fn lexical_read_f32(text: &[u8], format: Format) -> AnswerF32
    ensures { result ≡ answer_f32_of (read_float binary32 (number_format_of format) (options_of format) text.now) }
{
    lexical_read_float::read_float::<f32>(text, format.into(), format.into()).into()
}
