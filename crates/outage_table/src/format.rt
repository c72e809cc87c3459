// The check of a sheet's format: document 01, "1 to 4; 5, also for any digit limit; 6", and document 02, 16.
ghost use Rattle.std.specs.Prelude.{◌≡◌};
ghost use Rattle.lexical_util.specs.Answer.{done, and_then, of_result};
ghost use Rattle.lexical_format.specs.Format.{settled};
ghost use Rattle.outage_spec.specs.Calls.{sheet_format};

use lexical_format::{CheckedFormat, MOST_COUNT, NumberFormat, Options};
use lexical_util::Refusal;

// A count that 5 refuses.
const REFUSED: u32 = MOST_COUNT + 1;

// That count stands for any digit limit.
pub(crate) fn check_format(format: NumberFormat, options: Options) -> Result<CheckedFormat, Refusal>
    ensures { of_result result ≡ and_then (sheet_format format options) (λ row. done (settled options row)) }
{
    let mode = options.round_mode;
    let limit = if options.max_significant_digits == 0 {
        0
    } else {
        REFUSED
    };
    let unlimited = Options {
        max_significant_digits: limit,
        min_significant_digits: options.min_significant_digits,
        positive_exponent_break: options.positive_exponent_break,
        negative_exponent_break: options.negative_exponent_break,
        exponent_width: options.exponent_width,
        round_mode: mode,
        trim_floats: options.trim_floats,
        exponent: options.exponent,
        decimal_point: options.decimal_point,
    };
    lexical_format::check(format, unlimited)
}
