// What every call shares: its answer, radices, digit bytes and digit values.
#![tactic(auto)]

pub mod answer;
pub mod digit;

pub use answer::{Reason, Refusal};
pub use digit::{digit_bits, digit_value, is_radix, is_width};
