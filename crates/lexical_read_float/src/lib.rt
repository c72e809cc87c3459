// Reading a float's text.
#![tactic(auto)]

mod bits;
mod digits;
mod kept;
pub mod read;
mod round;
mod scan;

pub use bits::LONGEST_READ;
pub use read::read_float;
