// The order of floats by value, from their bits. A host may have set its processor to take denormals for zero, and the processor's own comparison then does.
ghost use Rattle.std.specs.Prelude.{◌≡◌, false, ◌*◌, ◌<◌};
ghost use Rattle.std.specs.Float.Ieee.{top, of_bits, nan_bits, lt};
ghost use Rattle.lexical_float.specs.Encoding.{of_width};

use crate::encoding::{Width, encoding_of};

// Bits of one sign are ordered as the values are, of negative floats the other way round.
fn less_bits(a: u64, b: u64, width: Width) -> bool
    requires { (a < 2 * top (of_width width)) × (b < 2 * top (of_width width)) × (nan_bits (of_width width) a ≡ false) × (nan_bits (of_width width) b ≡ false) }
    ensures { result ≡ lt (of_bits (of_width width) a) (of_bits (of_width width) b) }
{
    let encoding = encoding_of(width);
    let sign = encoding.sign_mask;
    if a < sign {
        return a < b && b < sign;
    }
    if b < sign {
        // A negative float is below the other, but minus zero is zero.
        return a > sign || b > 0;
    }
    b < a
}

// Less by value: minus zero equals zero, and a NaN, which `x != x` tells, is neither below nor above any float.
pub fn less_f64(x: f64, y: f64) -> bool
    ensures { result ≡ lt x y }
{
    if x != x {
        return false;
    }
    if y != y {
        return false;
    }
    less_bits(f64::to_bits(x), f64::to_bits(y), Width::Binary64)
}
