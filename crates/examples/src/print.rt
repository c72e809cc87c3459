// What the examples print with.
use lexical_util::Refusal;
use std::io;

// The first bytes, so many, and none where there are fewer.
pub(crate) fn first(rt: &impl Print, out: &[u8], n: usize) -> io::Result<()> {
    rt.write_all(out.get(..n).unwrap_or(&[]))
}

// The text of an answer, or its refusal.
pub(crate) fn answer(
    rt: &impl Print,
    written: Result<usize, Refusal>,
    out: &[u8],
) -> io::Result<()> {
    match written {
        Ok(n) => first(rt, out, n),
        Err(refusal) => print!(rt; "{refusal}"),
    }
}

// What the bytes lent hold then, and the line's end: ` [<bytes>]`.
pub(crate) fn held(rt: &impl Print, out: &[u8]) -> io::Result<()> {
    print!(rt; " [")?;
    rt.write_all(out)?;
    println!(rt; "]")
}
