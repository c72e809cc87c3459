// From an outage table to its sheet.
#![tactic(auto)]

mod format;
mod print;
mod table;
pub mod to_sheet;

pub use to_sheet::{LONGEST_SHEET, table_to_sheet};
