// Formats and answers as C structs, and what they stand for.
#![tactic(auto)]

pub mod answer;
pub mod format;

pub use answer::{Answer, AnswerF32, AnswerF64, StationAnswer};
pub use format::Format;
