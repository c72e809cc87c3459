// What the programs read and write, and the formats that they are given as arguments.
#![tactic(auto)]

pub mod archive;
pub mod argument;
pub mod input;
mod refusal;
pub mod screen;

pub use archive::{pack_table, unpack_table};
pub use argument::{format_argument, read_format, sheet_in};
pub use input::read_full;
pub use screen::{LONGEST_SHEET_READ, print_sheet, read_sheet, rewrite_sheet};
