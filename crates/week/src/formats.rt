// The formats of the week's stations.
use lexical_format::{NumberFormat, Options, RoundMode};
use lexical_rewrite::RECORD_SIZE;
use lexical_rewrite_spec::TextFormat;

// Exponent radix 10, exponents in width 1, point ".", all else default.
fn text_format(radix: u32, base: u32, mark: u8, required: bool, most: u32) -> TextFormat {
    TextFormat {
        format: NumberFormat {
            mantissa_radix: radix,
            exponent_base: base,
            exponent_radix: 10,
            required_exponent_notation: required,
            no_exponent_notation: false,
            required_exponent_sign: false,
            no_exponent_without_fraction: false,
        },
        options: Options {
            max_significant_digits: most,
            min_significant_digits: 0,
            positive_exponent_break: 0,
            negative_exponent_break: 0,
            exponent_width: 1,
            round_mode: RoundMode::Round,
            trim_floats: false,
            exponent: mark,
            decimal_point: b'.',
        },
    }
}

// 16/2, as the sheet is printed: mark "p", exponent required.
pub(crate) fn tuesday() -> TextFormat {
    text_format(16, 2, b'p', true, 0)
}

// 32/32, mark "^".
pub(crate) fn wednesday() -> TextFormat {
    text_format(32, 32, b'^', false, 0)
}

// 2/2, mark "e".
pub(crate) fn thursday() -> TextFormat {
    text_format(2, 2, b'e', false, 0)
}

// Wednesday's with at most so many digits.
pub(crate) fn limited(most: u32) -> TextFormat {
    text_format(32, 32, b'^', false, most)
}

// A format with exponents in a width.
pub(crate) fn widened(format: TextFormat, width: u32) -> TextFormat {
    let mut wide = format;
    wide.options.exponent_width = width;
    wide
}

pub(crate) const TWO_RECORDS: usize = 2 * RECORD_SIZE;

// Thursday's format as a station's record, then Wednesday's with exponents in width 3.
pub(crate) const RECORDS: [u8; TWO_RECORDS] = [
    2, 2, 10, 0, 0, 0, 0, 0, 0, 0, 0, 0, 0, 0, 0, 0, 0, 1, 46, 101, 32, 32, 10, 0, 0, 0, 0, 0, 0,
    0, 0, 0, 0, 0, 0, 0, 0, 3, 46, 94,
];
