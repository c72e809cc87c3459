// A chain of stations: document 01, "Rewriting". Each station reads what the one before it wrote, up to the length returned, under that one's format. Nothing is written into the bytes lent before the last station.
ghost use Rattle.std.specs.Prelude.{◌≡◌, ◌≤◌, ◌<◌, length, take, drop};
ghost use Rattle.lexical_rewrite_spec.specs.Rewrite.{read_in, rewrite_answer, rewrite_bytes};
ghost use Rattle.lexical_rewrite_spec.specs.Record.{formats_of};
ghost use Rattle.lexical_rewrite_spec.specs.Chain.{at_station, chain_of};
ghost use Rattle.lexical_rewrite_spec.specs.Demand.{NeverLost};
ghost use Rattle.lexical_rewrite.specs.Answer.{of_rewritten, of_chained};
ghost use Rattle.lexical_rewrite.specs.Code.{on_from};
ghost use Rattle.lexical_write_float_spec.specs.Write.{longest_text};

use crate::record::{RECORD_SIZE, format_of_record};
use crate::rewrite::{RewriteRefusal, rewrite_float};
use lexical_float::Float;
use lexical_read_float::read_float;
use lexical_rewrite_spec::TextFormat;
use lexical_write_float::{LONGEST_TEXT, write_float};

// A refusal of a station's reading or writing, with the station's number, counted from 0.
#[derive(Clone, Copy, Debug, PartialEq, Eq)]
pub struct ChainRefusal {
    pub station: usize,
    pub refusal: RewriteRefusal,
}

// One station whose text stands in front of the bytes that it writes into.
fn rewrite_within<F: Float>(
    buffer: &mut [u8],
    count: usize,
    from: TextFormat,
    to: TextFormat,
) -> Result<usize, RewriteRefusal>
    requires { count ≤ length buffer.old }
    ensures result_value { of_rewritten result ≡ rewrite_answer to buffer.old (read_in F.format from (take count buffer.old)) }
    ensures buffer_after { buffer.new ≡ rewrite_bytes to buffer.old (read_in F.format from (take count buffer.old)) }
{
    let x: F = read_float(&buffer[..count], from.format, from.options).map_err(
        RewriteRefusal::Reading,
    )?;
    write_float(x, to.format, to.options, buffer).map_err(RewriteRefusal::Writing)
}

// What a chain answers where it ends with a station.
fn at_station(station: usize, answer: Result<usize, RewriteRefusal>) -> Result<usize, ChainRefusal>
    ensures { of_chained result ≡ at_station station (of_rewritten answer) }
{
    answer.map_err(|refusal| ChainRefusal { station, refusal })
}

// The stations behind the first, once it has written into the scratch bytes: each but the last writes there too. A `while`, since the last of the records left is another station's, and may be cut off.
fn chain_further<F: Float>(
    scratch: &mut [u8; LONGEST_TEXT],
    written: usize,
    first: TextFormat,
    further: &[u8],
    buffer: &mut [u8],
) -> Result<usize, ChainRefusal>
    requires { (written ≤ longest_text) × (0 < length further.now) }
    ensures result_value { of_chained result ≡ (on_from F.format 1 first (take written scratch.old) further.now buffer.old).answer }
    ensures buffer_after { buffer.new ≡ (on_from F.format 1 first (take written scratch.old) further.now buffer.old).bytes }
{
    let mut count = written;
    let mut station = 1;
    let mut source = first;
    let mut records = further;
    while records.len() > RECORD_SIZE {
        let target = format_of_record(records);
        count = at_station(station, rewrite_within::<F>(scratch, count, source, target))?;
        station += 1;
        source = target;
        records = &records[RECORD_SIZE..];
    }
    let last = format_of_record(records);
    at_station(
        station,
        rewrite_float::<F>(&scratch[..count], source, last, buffer),
    )
}

// The first station, and the further ones if there are any. Each but the last writes into bytes of the chain's own.
fn chain<F: Float>(
    text: &[u8],
    from: TextFormat,
    first: TextFormat,
    further: &[u8],
    buffer: &mut [u8],
) -> Result<usize, ChainRefusal>
    ensures result_value { of_chained result ≡ (chain_of F.format from text.now first (formats_of further.now) buffer.old).answer }
    ensures buffer_after { buffer.new ≡ (chain_of F.format from text.now first (formats_of further.now) buffer.old).bytes }
{
    if further.is_empty() {
        return at_station(0, rewrite_float::<F>(text, from, first, buffer));
    }
    let mut scratch = [0u8; LONGEST_TEXT];
    let written = at_station(0, rewrite_float::<F>(text, from, first, &mut scratch))?;
    chain_further::<F>(&mut scratch, written, first, further, buffer)
}

// The text in the format `from`, rewritten in the format `first`, then in that of each record of `further`, the last of which may be cut off, through a float of the width at each station. Each station but the last writes into bytes of the chain's own. On a refusal the bytes lent are as they were.
pub fn chain_float<F: Float>(
    text: &[u8],
    from: TextFormat,
    first: TextFormat,
    further: &[u8],
    buffer: &mut [u8],
) -> Result<usize, ChainRefusal>
    ensures result_value { of_chained result ≡ (chain_of F.format from text.now first (formats_of further.now) buffer.old).answer }
    ensures buffer_after { buffer.new ≡ (chain_of F.format from text.now first (formats_of further.now) buffer.old).bytes }
    ensures never_lost { NeverLost F.format from text.now first (formats_of further.now) buffer.old (of_chained result) buffer.new }
{
    chain::<F>(text, from, first, further, buffer)
}
