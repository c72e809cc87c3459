// What the programs of the archive write: a packed table, or a table again, or the refusal.
ghost use Rattle.std.specs.Prelude.{◌≡◌, ◌≤◌, length};
ghost use Rattle.outage_planes_spec.specs.Calls.{packed_table, unpacked_table};
ghost use Rattle.outage_console.specs.Screen.{screen, shown};

use crate::screen::put_answer;
use outage::LONGEST_TABLE;
use outage_planes::{pack, unpack};

// The packed table of a table, or the refusal: how many bytes are shown. No packed table is longer than the bytes lent.
pub fn pack_table(table: &[u8], out: &mut [u8; LONGEST_TABLE]) -> usize
    ensures value { result ≡ length (screen (packed_table table.now)) }
    ensures out_after { out.new ≡ shown (packed_table table.now) out.old }
    ensures within { result ≤ length out.new }
{
    let answer = pack(table, out);
    put_answer(out, answer)
}

// The table of a packed table, or the refusal: how many bytes are shown. No table is longer than the bytes lent.
pub fn unpack_table(packed: &[u8], out: &mut [u8; LONGEST_TABLE]) -> usize
    ensures value { result ≡ length (screen (unpacked_table packed.now)) }
    ensures out_after { out.new ≡ shown (unpacked_table packed.now) out.old }
    ensures within { result ≤ length out.new }
{
    let answer = unpack(packed, out);
    put_answer(out, answer)
}
