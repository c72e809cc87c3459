// A float's parts, where a bit pattern has them, its sign in a text, and the order of floats by value.
#![tactic(auto)]

pub mod encoding;
pub mod num;
pub mod order;
pub mod sign;

pub use encoding::{Encoding, Width, encoding_of, is_special};
pub use num::{Float, Parts};
pub use order::less_f64;
pub use sign::minus_length;
