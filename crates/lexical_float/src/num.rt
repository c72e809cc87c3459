// Derived from lexical-util/src/num.rs, changed: of the trait `Float` the width, the bits and the parts alone, with sign, infinities and NaN as cases of one answer.
ghost use Rattle.std.specs.Prelude.{◌≡◌, ◌<◌, ◌*◌, T, refl, is_nan, to_bits};
ghost use Rattle.std.specs.Float.{Float as Ieee754, Format, binary32, binary64};
ghost use Rattle.std.specs.Float.Ieee.{fits, of_bits, top};
ghost use Rattle.lexical_float.specs.declared.encoding.Width.{Width};
ghost use Rattle.lexical_float.specs.declared.encoding.Width.TheVariants.{Binary32, Binary64};
ghost use Rattle.lexical_float.specs.Encoding.{of_width};
ghost use Rattle.lexical_float.specs.Parts.{parts_of, IsValue};

use crate::encoding::{Width, parts_of_bits};
use lexical_exponent::Magnitude;
use std::num::{
    f32_from_bits_with_nan, f32_to_bits_with_nan, f64_from_bits_with_nan, f64_to_bits_with_nan,
};

// What a float is: its sign apart from its magnitude, or neither. No `Option`: `Special` says what a float without parts is, and `None` would not.
#[derive(Clone, Copy)]
pub enum Parts {
    // Finite: whether the sign bit is set, as -0 has it too, and the magnitude.
    Finite(bool, Magnitude),
    // An infinity or a NaN.
    Special,
}

// A type of floats: its width, and their bits, which a u64 holds at either width.
pub trait Float: Copy {
    const WIDTH: Width;

    ghost WIDTH: { Width };

    // The width as the definitions know it, and what they take a value for.
    ghost format: { Format };

    ghost value: { Self → Ieee754 };

    fn is_nan(self) -> bool
        ensures { result ≡ is_nan (value self) };

    // A NaN's own bits are not defined: every NaN gives the same.
    fn to_bits(self) -> u64
        ensures bits { result ≡ to_bits format (value self) }
        ensures fits { T (fits format (value self)) };

    // The float with these bits, any NaN where they are a NaN's. Of bits past the width nothing is said.
    fn from_bits(bits: u64) -> Self
        ensures { bits < 2 * top format → value result ≡ of_bits format bits };

    ghost format_is: { format ≡ of_width WIDTH };

    // A finite float's sign, mantissa and exponent, or that it is not finite.
    final fn parts(self) -> Parts
        ensures parts { result ≡ parts_of format (value self) }
        ensures value { IsValue (value self) result }
        ensures fits { T (fits format (value self)) }
    {
        parts_of_bits(self.to_bits(), Self::WIDTH)
    }
}

impl Float for f64 {
    const WIDTH: Width = Width::Binary64;

    ghost WIDTH = { Binary64 };

    ghost format = { binary64 };

    ghost value = { λ x. x };

    ghost format_is = { refl };

    fn is_nan(self) -> bool {
        f64::is_nan(self)
    }

    fn to_bits(self) -> u64 {
        f64_to_bits_with_nan(self)
    }

    fn from_bits(bits: u64) -> f64 {
        f64_from_bits_with_nan(bits)
    }
}

impl Float for f32 {
    const WIDTH: Width = Width::Binary32;

    ghost WIDTH = { Binary32 };

    ghost format = { binary32 };

    ghost value = { λ x. x };

    ghost format_is = { refl };

    fn is_nan(self) -> bool {
        f32::is_nan(self)
    }

    fn to_bits(self) -> u64 {
        f32_to_bits_with_nan(self) as u64
    }

    fn from_bits(bits: u64) -> f32 {
        f32_from_bits_with_nan(bits.min(0xffff_ffff) as u32)
    }
}
