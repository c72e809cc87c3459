// The three kinds of exponent, and the functions that scale one into another.
#![tactic(auto)]

pub mod exponent;

pub use exponent::{
    BaseExponent, BitExponent, DigitExponent, Magnitude, base_exponent, calculate_shl,
    digit_exponent, digits_in_bits, height_above, is_below, places_before_point, powers_in_bits,
    quotient, raised, sci_exp, significant_bits, unsigned_abs, zeros_behind_point,
};
