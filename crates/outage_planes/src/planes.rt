// The planes of one column: filled from its floats and written out one behind the other, or filled from its planes and written out as floats.
ghost use Rattle.std.specs.Prelude.{◌≡◌, ◌+◌, ◌*◌, ◌≤◌, ◌<◌, length, take};
ghost use Rattle.lexical_buffer.specs.Put.{put, Puts};
ghost use Rattle.outage_spec.specs.Table.{most_windows, float_size};
ghost use Rattle.outage_planes_spec.specs.Planes.{byte_of_each, planes_of, floats_of};
ghost use Rattle.outage_planes.specs.Code.{first_bytes, byte_across, bytes_across};

use lexical_buffer::put_bytes;
use outage::{FLOAT_SIZE, MOST_WINDOWS};

// Plane j has byte j of each float.
pub(crate) type Planes = [[u8; MOST_WINDOWS]; FLOAT_SIZE];

// One plane of n floats: every eighth byte from a place on.
fn fill_plane(plane: &mut [u8], table: &[u8], from: usize, n: usize)
    requires { (n ≤ length plane.old) × (from + float_size * n ≤ length table.now + 7) × (n ≤ most_windows) }
    ensures { plane.new ≡ put plane.old 0 (byte_of_each float_size n from table.now) }
{
    for (i, slot) in plane[..n].iter_mut().enumerate() {
        *slot = table[from + FLOAT_SIZE * i];
    }
}

// The planes of the n floats at a place.
pub(crate) fn fill_from_floats(planes: &mut Planes, table: &[u8], at: usize, n: usize)
    requires { (n ≤ most_windows) × (at + float_size * n ≤ length table.now) }
    ensures { first_bytes n planes.new ≡ planes_of n at table.now }
{
    for (j, plane) in planes.iter_mut().enumerate() {
        fill_plane(plane, table, at + j, n);
    }
}

// The first n of some bytes, from a place on.
fn put_first(target: &mut [u8], at: usize, bytes: &[u8], n: usize) -> usize
    requires { (n ≤ length bytes.now) × (at + n ≤ length target.old) }
    ensures { Puts target.old at (take n bytes.now) result target.new }
{
    put_bytes(target, at, &bytes[..n])
}

// The planes, one behind the other, from a place on.
pub(crate) fn put_as_planes(planes: &Planes, n: usize, packed: &mut [u8], at: usize) -> usize
    requires { (n ≤ most_windows) × (at + float_size * n ≤ length packed.old) }
    ensures { Puts packed.old at (first_bytes n planes.now) result packed.new }
{
    let mut next = at;
    for plane in planes {
        next = put_first(packed, next, plane, n);
    }
    next
}

// The eight planes of n bytes at a place.
pub(crate) fn fill_from_planes(planes: &mut Planes, packed: &[u8], at: usize, n: usize)
    requires { (n ≤ most_windows) × (at + float_size * n ≤ length packed.now) }
    ensures { bytes_across 0 n planes.new ≡ floats_of n at packed.now }
{
    let mut from = at;
    for plane in planes.iter_mut() {
        put_first(plane, 0, &packed[from..], n);
        from += n;
    }
}

// A float: byte i of each plane, from a place on.
fn put_float(table: &mut [u8], at: usize, planes: &Planes, i: usize) -> usize
    requires { (i < most_windows) × (at + float_size ≤ length table.old) }
    ensures { Puts table.old at (byte_across i planes.now) result table.new }
{
    for (j, plane) in planes.iter().enumerate() {
        table[at + j] = plane[i];
    }
    at + FLOAT_SIZE
}

// The n floats, from a place on.
pub(crate) fn put_as_floats(planes: &Planes, n: usize, table: &mut [u8], at: usize) -> usize
    requires { (n ≤ most_windows) × (at + float_size * n ≤ length table.old) }
    ensures { Puts table.old at (bytes_across 0 n planes.now) result table.new }
{
    let mut next = at;
    for i in 0..n {
        next = put_float(table, next, planes, i);
    }
    next
}
