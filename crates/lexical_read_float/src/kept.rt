// What is kept of the number that a text's digits spell: the bits that settle a rounding, and whether any other is set.

// The number's leading bits, how many bits it has below them, and whether all of those are clear.
#[derive(Clone, Copy)]
pub(crate) struct Kept {
    pub bits: u64,
    pub below: u32,
    pub clear: bool,
}
