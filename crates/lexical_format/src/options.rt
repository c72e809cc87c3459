// Derived from lexical-write-float/src/options.rs, changed: an exponent has a least width, an absent count or break is zero, and the strings for NaN and infinity are left out.

#[derive(Clone, Copy)]
pub enum RoundMode {
    Round,
    Truncate,
}

#[derive(Clone, Copy)]
pub struct Options {
    // At most so many digits; 0 is no limit.
    pub max_significant_digits: u32,
    // At least so many digits; 0 is none.
    pub min_significant_digits: u32,
    // Exponent notation where s lies above it; 0 means 9.
    pub positive_exponent_break: i32,
    // Exponent notation where s lies below it; 0 means -5.
    pub negative_exponent_break: i32,
    // At least so many digits in an exponent, 1 to 4: zero does not mean absent here.
    pub exponent_width: u32,
    pub round_mode: RoundMode,
    // No ".0" behind a whole number.
    pub trim_floats: bool,
    // The mark in front of an exponent.
    pub exponent: u8,
    pub decimal_point: u8,
}
