// Numbers in a table's bytes, little endian.
ghost use Rattle.std.specs.Prelude.{◌≡◌, take};
ghost use Rattle.outage_spec.specs.Words.{of_bytes};
ghost use Rattle.outage_spec.specs.Table.{float_size};

use crate::size::FLOAT_SIZE;

// The number of which these are the bytes, little endian, the first eight where there are more.
pub fn word_of(bytes: &[u8]) -> u64
    ensures { result ≡ of_bytes (take float_size bytes.now) }
{
    let count = FLOAT_SIZE.min(bytes.len());
    let mut word: u64 = 0;
    for byte in bytes[..count].iter().rev() {
        word = word * 256 + *byte as u64;
    }
    word
}
