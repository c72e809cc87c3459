// Byte planes for the archive: a table packed, and unpacked again.
#![tactic(auto)]

pub mod archive;
mod planes;

pub use archive::{pack, unpack};
