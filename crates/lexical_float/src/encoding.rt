// Derived from the constants, `mantissa` and `exponent` of lexical-util/src/num.rs, changed: one body on u64, with the width beside it instead of a trait.
ghost use Rattle.std.specs.Prelude.{◌≡◌, not, ◌*◌, ◌<◌};
ghost use Rattle.std.specs.Float.Ieee.{hid, ones, top, of_bits};
ghost use Rattle.std.specs.Float.Ieee.Scale.{finite};
ghost use Rattle.lexical_float.specs.Encoding.{of_width, encoding_of};
ghost use Rattle.lexical_float.specs.Parts.{magnitude_of, parts_of};

use crate::num::Parts;
use lexical_exponent::{BitExponent, Magnitude};
use std::fmt;

#[derive(Clone, Copy, Debug, PartialEq, Eq)]
pub enum Width {
    Binary32,
    Binary64,
}

// By the type that has it.
impl fmt::Display for Width {
    fn fmt<W: fmt::Write>(&self, f: &mut fmt::Formatter<W>) -> fmt::Result {
        f.write_str(match self {
            Width::Binary32 => "f32",
            Width::Binary64 => "f64",
        })
    }
}

// Where the fields of a bit pattern stand, and how its exponent is counted. The exponent's mask is also the infinity's bits.
#[derive(Clone, Copy)]
pub struct Encoding {
    pub mantissa_size: u32,
    pub hidden_bit_mask: u64,
    pub exponent_mask: u64,
    pub sign_mask: u64,
    pub exponent_bias: i32,
    pub denormal_exponent: BitExponent,
}

pub fn encoding_of(width: Width) -> Encoding
    ensures { result ≡ encoding_of (of_width width) }
{
    match width {
        Width::Binary32 => Encoding {
            mantissa_size: 23,
            hidden_bit_mask: 0x80_0000,
            exponent_mask: 0x7f80_0000,
            sign_mask: 0x8000_0000,
            exponent_bias: 150,
            denormal_exponent: BitExponent(-149),
        },
        Width::Binary64 => Encoding {
            mantissa_size: 52,
            hidden_bit_mask: 0x10_0000_0000_0000,
            exponent_mask: 0x7ff0_0000_0000_0000,
            sign_mask: 0x8000_0000_0000_0000,
            exponent_bias: 1075,
            denormal_exponent: BitExponent(-1074),
        },
    }
}

// Mantissa and exponent of the bits below the sign.
fn magnitude_of_bits(bits: u64, width: Width) -> Magnitude
    requires { bits < ones (of_width width) * hid (of_width width) }
    ensures { result ≡ magnitude_of (of_width width) (of_bits (of_width width) bits) }
{
    let encoding = encoding_of(width);
    let hidden = encoding.hidden_bit_mask;
    let stored = bits & (hidden - 1);
    let biased = bits >> encoding.mantissa_size;
    if biased == 0 {
        let least = encoding.denormal_exponent;
        return Magnitude {
            mantissa: stored,
            exponent: least,
        };
    }
    Magnitude {
        mantissa: hidden + stored,
        exponent: BitExponent(biased as i32 - encoding.exponent_bias),
    }
}

// Whether bits are an infinity's or a NaN's: below the sign, they lie from the infinity's on. Bits above the width's own have no say.
pub fn is_special(bits: u64, width: Width) -> bool
    ensures { result ≡ not (finite (of_bits (of_width width) bits)) }
{
    let encoding = encoding_of(width);
    let below = bits & (encoding.sign_mask - 1);
    below >= encoding.exponent_mask
}

// The parts of any bit pattern of the width.
pub(crate) fn parts_of_bits(bits: u64, width: Width) -> Parts
    requires { bits < 2 * top (of_width width) }
    ensures { result ≡ parts_of (of_width width) (of_bits (of_width width) bits) }
{
    if is_special(bits, width) {
        return Parts::Special;
    }
    let encoding = encoding_of(width);
    let sign = encoding.sign_mask;
    let value = magnitude_of_bits(bits & (sign - 1), width);
    let negative = bits >= sign;
    Parts::Finite(negative, value)
}
