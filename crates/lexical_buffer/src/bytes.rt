// Bytes put into a buffer from a place on. Each call answers the next place: the Rust's cursor behind `&mut` is a number handed back. Without room it puts nothing and answers the place that it was given.
ghost use Rattle.std.specs.Prelude.{◌≡◌, [], ◌∷◌, ◌+◌, ◌≤◌, leb, length};
ghost use Rattle.lexical_util.specs.Answer.{done};
ghost use Rattle.lexical_buffer.specs.Put.{next_place, held_from, put};

// Whether so many bytes from a place on lie within a length.
pub(crate) fn lies_within(length: usize, at: usize, count: usize) -> bool
    ensures { result ≡ leb (at + count) length }
{
    if length < at {
        return false;
    }
    count <= length - at
}

pub fn put_byte(buffer: &mut [u8], at: usize, byte: u8) -> usize
    ensures value { result ≡ next_place at (done (byte ∷ [])) buffer.old }
    ensures buffer_after { buffer.new ≡ held_from at (done (byte ∷ [])) buffer.old }
{
    if at < buffer.len() {
        buffer[at] = byte;
        return at + 1;
    }
    at
}

// A loop: std's `copy_from_slice` would have the library for C want `memmove` from outside.
fn copy(buffer: &mut [u8], at: usize, bytes: &[u8])
    requires { at + length bytes.now ≤ length buffer.old }
    ensures { buffer.new ≡ put buffer.old at bytes.now }
{
    for (i, byte) in bytes.iter().enumerate() {
        buffer[at + i] = *byte;
    }
}

pub fn put_bytes(buffer: &mut [u8], at: usize, bytes: &[u8]) -> usize
    ensures value { result ≡ next_place at (done bytes.now) buffer.old }
    ensures buffer_after { buffer.new ≡ held_from at (done bytes.now) buffer.old }
{
    if lies_within(buffer.len(), at, bytes.len()) {
        copy(buffer, at, bytes);
        return at + bytes.len();
    }
    at
}
