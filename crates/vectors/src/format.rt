// A line's format.
use crate::fields::{Fields, Malformed};
use lexical_format::{NumberFormat, Options, RoundMode};

// Radix, base and exponent radix, without flags: a line that reads has none.
pub(crate) fn radices(fields: &mut Fields) -> Result<NumberFormat, Malformed> {
    Ok(NumberFormat {
        mantissa_radix: fields.count()?,
        exponent_base: fields.count()?,
        exponent_radix: fields.count()?,
        required_exponent_notation: false,
        no_exponent_notation: false,
        required_exponent_sign: false,
        no_exponent_without_fraction: false,
    })
}

// The same and four flags.
pub(crate) fn format(fields: &mut Fields) -> Result<NumberFormat, Malformed> {
    let mut format = radices(fields)?;
    format.required_exponent_notation = fields.flag()?;
    format.no_exponent_notation = fields.flag()?;
    format.required_exponent_sign = fields.flag()?;
    format.no_exponent_without_fraction = fields.flag()?;
    Ok(format)
}

// Point and mark, and nothing else: a line that reads has no more, so that its format has the width 0, for which no reading may refuse it.
pub(crate) fn bytes(fields: &mut Fields) -> Result<Options, Malformed> {
    let decimal_point = fields.byte()?;
    let exponent = fields.byte()?;
    Ok(Options {
        max_significant_digits: 0,
        min_significant_digits: 0,
        positive_exponent_break: 0,
        negative_exponent_break: 0,
        exponent_width: 0,
        round_mode: RoundMode::Round,
        trim_floats: false,
        exponent,
        decimal_point,
    })
}

fn round_mode(truncate: bool) -> RoundMode {
    if truncate {
        RoundMode::Truncate
    } else {
        RoundMode::Round
    }
}

// The same, and whether to trim and to truncate, the least and the most digits, and the breaks, the lower first. An exponent's width follows.
pub(crate) fn options(fields: &mut Fields) -> Result<Options, Malformed> {
    let mut options = bytes(fields)?;
    options.trim_floats = fields.flag()?;
    options.round_mode = round_mode(fields.flag()?);
    options.min_significant_digits = fields.count()?;
    options.max_significant_digits = fields.count()?;
    options.negative_exponent_break = fields.int()?;
    options.positive_exponent_break = fields.int()?;
    Ok(options)
}
