// The header of a table, its count and its length: document 01, "Outage table and sheet".
ghost use Rattle.std.specs.Prelude.{◌≡◌, ℕ};
ghost use Rattle.lexical_util.specs.Answer.{some_or};
ghost use Rattle.outage_spec.specs.Table.{header_count};

use crate::size::{HEADER_SIZE, MOST_WINDOWS, ROW_SIZE};
use crate::word::word_of;

// The sizes as wide as the numbers in a table's bytes.
const MOST: u64 = MOST_WINDOWS as u64;

const HEADER: u64 = HEADER_SIZE as u64;

const ROW: u64 = ROW_SIZE as u64;

// The count of a table's windows, where the header is right and the table as long as it says. The refusal's number is the caller's, since a packed table has the same header.
pub fn header_count(table: &[u8]) -> Option<usize>
    ensures { (number : ℕ) → some_or number result ≡ header_count number table.now }
{
    if table.len() < HEADER_SIZE {
        return None;
    }
    let n = word_of(&table[0..4]);
    if n > MOST {
        return None;
    }
    if word_of(&table[4..HEADER_SIZE]) != HEADER + ROW * n {
        return None;
    }
    if table.len() as u64 != HEADER + ROW * n {
        return None;
    }
    Some(n as usize)
}
