// From the kept bits of a number to the bits of the nearest float below its sign: one body on u64 for both widths, whatever the sign.
ghost use Rattle.std.specs.Prelude.{◌≡◌, Bool, ℕ, ◌+◌, ◌*◌, ◌/◌, ◌^◌, ◌≤◌, ◌<◌};
ghost use Rattle.std.specs.Float.Ieee.{low};
ghost use Rattle.lexical_float.specs.Encoding.{of_width};
ghost use Rattle.lexical_read_float_spec.specs.Read.{float_of, longest_read};
ghost use Rattle.lexical_read_float.specs.Guard.{is_clear, guarded};
ghost use Rattle.lexical_read_float.specs.Pattern.{lift};
ghost use Rattle.lexical_read_float.specs.Kept.{full, IsFull, Holds};
ghost use Rattle.lexical_read_float.specs.Rounding.{of_rounded, IsFinite, rounded_bits};

use crate::kept::Kept;
use lexical_exponent::{BitExponent, height_above, significant_bits};
use lexical_float::{Width, encoding_of};

// The n of a width whose least value is 2^-n.
fn lowest_of(width: Width) -> u32
    ensures { result ≡ low (of_width width) }
{
    let encoding = encoding_of(width);
    height_above(BitExponent(0), encoding.denormal_exponent)
}

// How far the last bit that the width keeps stands above its least value.
fn lift_of(bits: u64, up: u32, down: u32, width: Width) -> u32
    requires { (up ≤ 300000) × (down ≤ 300000) }
    ensures { result ≡ lift (of_width width) bits up down }
{
    let encoding = encoding_of(width);
    let first = significant_bits(bits) + (up + lowest_of(width));
    let last = down + (encoding.mantissa_size + 1);
    if first > last {
        return first - last;
    }
    0
}

// The bits above the lowest `count`.
fn bits_above(bits: u64, count: u32) -> u64
    ensures { result ≡ bits / 2 ^ count }
{
    if count > 63 {
        return 0;
    }
    bits >> count
}

// Whether the lowest `count` bits are clear, and all below them.
fn is_clear(bits: u64, clear: bool, count: u32) -> bool
    requires { 0 < bits }
    ensures { result ≡ is_clear clear bits count }
{
    if count > 63 {
        return false;
    }
    clear && (bits >> count) << count == bits
}

// The bits above the last one, which is the guard bit, rounded to the nearest, ties to even.
fn to_nearest(bits: u64, clear: bool) -> u64
    ensures value { result ≡ guarded bits clear }
    ensures room { result ≤ bits / 2 + 1 }
{
    let half = bits / 2;
    let last = half % 2;
    if bits % 2 == 0 {
        return half;
    }
    if clear {
        return half + last;
    }
    half + 1
}

// The bits of the float nearest to a number, which is the bits and what is below them, times 2^up / 2^down; none where it is too large for one: there the bits reach the infinity's.
fn round_bits(bits: u64, clear: bool, up: u32, down: u32, width: Width) -> Option<u64>
    requires { (full ≤ bits) × (up ≤ 300000) × (down ≤ 300000) }
    ensures { result ≡ rounded_bits (of_width width) bits clear up down }
{
    let encoding = encoding_of(width);
    let lift = lift_of(bits, up, down, width);
    // Above either width's field, so that the sums fit.
    if lift > 2046 {
        return None;
    }
    let count = down + lift - (up + lowest_of(width) + 1);
    let above = bits_above(bits, count);
    let rest = is_clear(bits, clear, count);
    let field = lift as u64 * encoding.hidden_bit_mask;
    let nearest = field + to_nearest(above, rest);
    if nearest >= encoding.exponent_mask {
        return None;
    }
    Some(nearest)
}

// The number that the bits stand for, times 2^up / 2^down. Where nothing is below the bits, they are first moved up to the highest place.
pub(crate) fn round_kept(kept: Kept, up: u32, down: u32, width: Width) -> Option<u64>
    requires { IsFull kept × (kept.below ≤ 5 * longest_read) × (up ≤ 200000) × (down ≤ 200000) }
    ensures result_value { (s : Bool) (n : ℕ) → Holds n kept → of_rounded (of_width width) s result ≡ float_of (of_width width) s (n * 2 ^ up) (2 ^ down) }
    ensures finite { IsFinite (of_width width) result }
{
    let bits = kept.bits;
    let below = kept.below;
    let clear = kept.clear;
    if bits == 0 {
        return Some(0);
    }
    if below == 0 {
        let shift = 64 - significant_bits(bits);
        return round_bits(bits << shift, true, up, down + shift, width);
    }
    round_bits(bits, clear, below + up, down, width)
}
