// The digits of an integer in radix 2, 4, 8, 10, 16 or 32.
#![tactic(auto)]

mod count;
mod decimal;
mod front;
mod mantissa;
mod radix;
mod table;
mod trace;
mod write;

pub use count::{digit_count, digit_log};
pub use mantissa::write_mantissa;
pub use table::digit_byte;
pub use trace::write_step;
pub use write::write_integer;
