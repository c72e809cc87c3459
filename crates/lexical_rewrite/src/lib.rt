// Rewriting a text from one format into another, a chain of such rewritings, and the records of bytes in which a chain is given its formats.
#![tactic(auto)]

pub mod chain;
pub mod record;
pub mod rewrite;

pub use chain::{ChainRefusal, chain_float};
pub use record::{RECORD_SIZE, format_of_record};
pub use rewrite::{RewriteRefusal, rewrite_float};
