// A format of number text: radix and base of an exponent, flags, options, and its check.
#![tactic(auto)]

pub mod checks;
pub mod format;
pub mod options;

pub use checks::{CheckedFormat, MOST_COUNT, check, check_reading, outside};
pub use format::{NumberFormat, Pair};
pub use options::{Options, RoundMode};
