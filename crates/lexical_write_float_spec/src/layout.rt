// Derived from the macro `write_float!` of lexical-write-float/src/shared.rs, changed: the three layouts that it chooses between are one type.
#[derive(Clone, Copy)]
pub enum Layout {
    Scientific,
    Negative,
    Positive,
}
