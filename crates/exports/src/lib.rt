// Every call for programs in C and Rust. Structs cross by value, and a slice as a pointer and a length.
#![tactic(auto)]

pub mod archive;
pub mod number;
pub mod sheet;
pub mod station;
