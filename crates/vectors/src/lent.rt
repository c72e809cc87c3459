// Bytes lent to a call that writes.

// What they hold before a call. No text has this byte.
pub(crate) const FILL: u8 = 7;

// Whether every byte is as it was. All are looked at: a stop at the first other one, as `all` makes it, takes thirteen times the instructions.
pub(crate) fn is_filled(bytes: &[u8]) -> bool {
    bytes.iter().fold(0, |others, byte| others | (*byte ^ FILL)) == 0
}

// Whether a text stands at the start, and every byte past it is as it was.
pub(crate) fn holds(bytes: &[u8], text: &[u8]) -> bool {
    bytes.strip_prefix(text).is_some_and(is_filled)
}
