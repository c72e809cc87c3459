// Reading a float: document 01, "Reader". Not derived: the Rust that was given has no reader.
ghost use Rattle.std.specs.Prelude.{◌≡◌};
ghost use Rattle.lexical_read_float_spec.specs.Read.{read_float};
ghost use Rattle.lexical_read_float_spec.specs.Claims.{IsNearest, IsServed};
ghost use Rattle.lexical_util.specs.Answer.{of_result_as};

use crate::bits::text_bits;
use lexical_float::Float;
use lexical_format::{NumberFormat, Options};
use lexical_util::Refusal;

// The float of either width nearest to the text's value, ties to even, or the first refusal. It is rounded once: an f32 does not come through an f64.
pub fn read_float<F: Float>(
    text: &[u8],
    format: NumberFormat,
    options: Options,
) -> Result<F, Refusal>
    ensures result_value { of_result_as F.value result ≡ read_float F.format format options text.now }
    ensures nearest { IsNearest F.format format options text.now (of_result_as F.value result) }
    ensures served { IsServed F.format format options text.now (of_result_as F.value result) }
{
    let row = lexical_format::check_reading(format, options)?;
    let bits = text_bits(text, format, options, row, F::WIDTH)?;
    Ok(F::from_bits(bits))
}
