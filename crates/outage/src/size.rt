// How many windows a table has at most, and how many bytes its parts have: document 01, "Outage table and sheet".
pub const MOST_WINDOWS: usize = 400;

// The count and the length, of four bytes each.
pub const HEADER_SIZE: usize = 8;

pub const FLOAT_SIZE: usize = 8;

// A start and an end.
pub const ROW_SIZE: usize = 2 * FLOAT_SIZE;

pub const LONGEST_TABLE: usize = HEADER_SIZE + ROW_SIZE * MOST_WINDOWS;
