// A format of a text: document 01, "a pair, an exponent radix, flags and options together".
use lexical_format::{NumberFormat, Options};

#[derive(Clone, Copy)]
pub struct TextFormat {
    pub format: NumberFormat,
    pub options: Options,
}
