// The text of a float: definitions and their laws, and the declared type that they speak of.
#![tactic(auto)]

pub mod layout;

pub use layout::Layout;
