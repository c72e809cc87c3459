// What rewriting a text is, and what writing and reading say together: a type, definitions and laws, and no code.
#![tactic(auto)]

pub mod text_format;

pub use text_format::TextFormat;
