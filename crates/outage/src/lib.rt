// What table, sheet and programs share: how large a table is, its header, a number in bytes, the check of a window, where a byte stands, and a number in radix 10.
#![tactic(auto)]

pub mod header;
pub mod line;
pub mod size;
pub mod window;
pub mod word;

pub use header::header_count;
pub use line::{find, read_number};
pub use size::{FLOAT_SIZE, HEADER_SIZE, LONGEST_TABLE, MOST_WINDOWS, ROW_SIZE};
pub use window::check_window;
pub use word::word_of;
