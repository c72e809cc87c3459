// A format as it crosses, and what the calls beneath take for it.
ghost use Rattle.std.specs.Prelude.{◌≡◌};
ghost use Rattle.export_structs.specs.Structs.{number_format_of, options_of, text_format_of};

use lexical_format::{NumberFormat, Options, RoundMode};
use lexical_rewrite_spec::TextFormat;

// A number format and options in one struct. No enum crosses, so the round mode is a flag. In this order no load of the call spans two of the 16-byte stores by which its caller passes the struct.
#[repr(C)]
#[derive(Clone, Copy)]
pub struct Format {
    pub required_exponent_notation: bool,
    pub no_exponent_notation: bool,
    pub required_exponent_sign: bool,
    pub no_exponent_without_fraction: bool,
    pub truncate: bool,
    pub trim_floats: bool,
    pub exponent: u8,
    pub decimal_point: u8,
    pub mantissa_radix: u32,
    pub exponent_base: u32,
    pub max_significant_digits: u32,
    pub min_significant_digits: u32,
    pub positive_exponent_break: i32,
    pub negative_exponent_break: i32,
    pub exponent_radix: u32,
    pub exponent_width: u32,
}

impl From<Format> for NumberFormat {
    ghost from_gives = { λ format number_format. number_format ≡ number_format_of format };

    fn from(format: Format) -> NumberFormat {
        NumberFormat {
            mantissa_radix: format.mantissa_radix,
            exponent_base: format.exponent_base,
            exponent_radix: format.exponent_radix,
            required_exponent_notation: format.required_exponent_notation,
            no_exponent_notation: format.no_exponent_notation,
            required_exponent_sign: format.required_exponent_sign,
            no_exponent_without_fraction: format.no_exponent_without_fraction,
        }
    }
}

impl From<Format> for Options {
    ghost from_gives = { λ format options. options ≡ options_of format };

    fn from(format: Format) -> Options {
        Options {
            max_significant_digits: format.max_significant_digits,
            min_significant_digits: format.min_significant_digits,
            positive_exponent_break: format.positive_exponent_break,
            negative_exponent_break: format.negative_exponent_break,
            exponent_width: format.exponent_width,
            round_mode: if format.truncate {
                RoundMode::Truncate
            } else {
                RoundMode::Round
            },
            trim_floats: format.trim_floats,
            exponent: format.exponent,
            decimal_point: format.decimal_point,
        }
    }
}

impl From<Format> for TextFormat {
    ghost from_gives = { λ format text_format. text_format ≡ text_format_of format };

    fn from(format: Format) -> TextFormat {
        TextFormat {
            format: format.into(),
            options: format.into(),
        }
    }
}
