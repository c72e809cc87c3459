// From an outage sheet to its table.
#![tactic(auto)]

mod row;
mod store;
pub mod to_table;

pub use to_table::sheet_to_table;
