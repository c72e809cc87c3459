// Writing a float's text.
#![tactic(auto)]

mod binary;
mod hex;
mod pieces;
mod plan;
mod shared;
mod write;

pub use write::{LONGEST_TEXT, write_float};
