// What the program prints with.
use lexical_rewrite::{ChainRefusal, RewriteRefusal};
use std::io;

// The first bytes, so many, or all where there are fewer.
pub(crate) fn front(out: &[u8], n: usize) -> &[u8] {
    out.get(..n).unwrap_or(out)
}

// The station that refused, and what.
pub(crate) fn chain_refusal(rt: &impl Print, refused: ChainRefusal) -> io::Result<()> {
    let station = refused.station;
    match refused.refusal {
        RewriteRefusal::Reading(refusal) => print!(rt; "station {station}, reading: {refusal}"),
        RewriteRefusal::Writing(refusal) => print!(rt; "station {station}, writing: {refusal}"),
    }
}

// The last text, or the station that refused.
pub(crate) fn chained(
    rt: &impl Print,
    answer: Result<usize, ChainRefusal>,
    out: &[u8],
) -> io::Result<()> {
    match answer {
        Ok(n) => rt.write_all(front(out, n)),
        Err(refused) => chain_refusal(rt, refused),
    }
}
