// Texts put into a lent buffer, each from a place on.
#![tactic(auto)]

mod bytes;
mod number;

pub use bytes::{put_byte, put_bytes};
pub use number::put_number;
