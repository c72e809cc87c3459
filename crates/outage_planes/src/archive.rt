// Packing and unpacking: document 02, 2.5. A table and its packed form have the same length, the same header, and each column in the same place.
ghost use Rattle.std.specs.Prelude.{◌≡◌, ℕ, List, ◌+◌, ◌*◌, ◌≤◌, length};
ghost use Rattle.lexical_util.specs.Answer.{done, and_then, written, held, of_result};
ghost use Rattle.lexical_util.specs.Reason.{reason_number};
ghost use Rattle.lexical_buffer.specs.Put.{Puts};
ghost use Rattle.outage_spec.specs.Table.{most_windows, float_size, table_size, header_count};
ghost use Rattle.outage_planes_spec.specs.Planes.{planes_of, floats_of, by_column};
ghost use Rattle.outage_planes_spec.specs.Calls.{packed_table, unpacked_table};
ghost use Rattle.outage_planes_spec.specs.Claims.{UnpacksBack, PacksBack};
ghost use Rattle.outage_planes_spec.proofs.InverseLaws.{planes_size, floats_size};

use crate::planes::{Planes, fill_from_floats, fill_from_planes, put_as_floats, put_as_planes};
use lexical_buffer::put_bytes;
use lexical_util::{Reason, Refusal};
use outage::{FLOAT_SIZE, HEADER_SIZE, MOST_WINDOWS, header_count};

// A way that a table goes: what is made of a column, which has as many bytes.
trait Direction {
    ghost made: { (n at : ℕ) → List ℕ → List ℕ };

    // A column, in its place.
    fn transpose_column(
        source: &[u8],
        at: usize,
        n: usize,
        planes: &mut Planes,
        target: &mut [u8],
    ) -> usize
        requires { (n ≤ most_windows) × (at + float_size * n ≤ length source.now) × (at + float_size * n ≤ length target.old) }
        ensures { Puts target.old at (made n at source.now) result target.new };

    ghost made_size: { (n at : ℕ) (t : List ℕ) → length (made n at t) ≡ float_size * n };
}

struct ToPlanes;

impl Direction for ToPlanes {
    ghost made = { planes_of };

    ghost made_size = { planes_size };

    fn transpose_column(
        source: &[u8],
        at: usize,
        n: usize,
        planes: &mut Planes,
        target: &mut [u8],
    ) -> usize {
        fill_from_floats(planes, source, at, n);
        put_as_planes(planes, n, target, at)
    }
}

struct ToFloats;

impl Direction for ToFloats {
    ghost made = { floats_of };

    ghost made_size = { floats_size };

    fn transpose_column(
        source: &[u8],
        at: usize,
        n: usize,
        planes: &mut Planes,
        target: &mut [u8],
    ) -> usize {
        fill_from_planes(planes, source, at, n);
        put_as_floats(planes, n, target, at)
    }
}

// What a header that passed belongs to: 8, or the same header, the starts and the ends.
fn transpose_columns<D: Direction>(
    source: &[u8],
    n: usize,
    planes: &mut Planes,
    target: &mut [u8],
) -> Result<usize, Refusal>
    requires { (n ≤ most_windows) × (length source.now ≡ table_size n) }
    ensures result_value { of_result result ≡ written (done (by_column D.made n source.now)) target.old }
    ensures target_after { target.new ≡ held (done (by_column D.made n source.now)) target.old }
{
    if target.len() < source.len() {
        return Err(Reason::NoRoom.at(0));
    }
    let starts = put_bytes(target, 0, &source[..HEADER_SIZE]);
    let ends = D::transpose_column(source, starts, n, planes, target);
    Ok(D::transpose_column(source, ends, n, planes, target))
}

// A table or a packed table: the header's refusal, by the reason that it has there, then 8, or the columns.
fn transpose<D: Direction>(
    source: &[u8],
    reason: Reason,
    target: &mut [u8],
) -> Result<usize, Refusal>
    ensures result_value { of_result result ≡ written (and_then (header_count (reason_number reason) source.now) (λ n. done (by_column D.made n source.now))) target.old }
    ensures target_after { target.new ≡ held (and_then (header_count (reason_number reason) source.now) (λ n. done (by_column D.made n source.now))) target.old }
{
    let n = header_count(source).ok_or(reason.at(0))?;
    let mut planes = [[0u8; MOST_WINDOWS]; FLOAT_SIZE];
    transpose_columns::<D>(source, n, &mut planes, target)
}

// The packed table of a table: 13, then 8. On a refusal the bytes lent are as they were.
pub fn pack(table: &[u8], packed: &mut [u8]) -> Result<usize, Refusal>
    ensures result_value { of_result result ≡ written (packed_table table.now) packed.old }
    ensures packed_after { packed.new ≡ held (packed_table table.now) packed.old }
    ensures unpacks_back { UnpacksBack table.now packed.old (of_result result) packed.new }
{
    transpose::<ToPlanes>(table, Reason::WrongTable, packed)
}

// The table of a packed table: 17, then 8. On a refusal the bytes lent are as they were.
pub fn unpack(packed: &[u8], table: &mut [u8]) -> Result<usize, Refusal>
    ensures result_value { of_result result ≡ written (unpacked_table packed.now) table.old }
    ensures table_after { table.new ≡ held (unpacked_table packed.now) table.old }
    ensures packs_back { PacksBack packed.now table.old (of_result result) table.new }
{
    transpose::<ToFloats>(packed, Reason::WrongPacked, table)
}
