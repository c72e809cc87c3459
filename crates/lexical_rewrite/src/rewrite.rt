// Rewriting a text: one reading under the format that it stands in, then one writing of the float read. Document 01, "Rewriting".
ghost use Rattle.std.specs.Prelude.{◌≡◌};
ghost use Rattle.lexical_rewrite_spec.specs.Rewrite.{read_in, rewrite_answer, rewrite_bytes};
ghost use Rattle.lexical_rewrite_spec.specs.Demand.{SameAsOthers};
ghost use Rattle.lexical_rewrite.specs.Answer.{of_rewritten};

use lexical_float::Float;
use lexical_read_float::read_float;
use lexical_rewrite_spec::TextFormat;
use lexical_util::Refusal;
use lexical_write_float::write_float;

// The refusal of a rewriting's reading, or of its writing.
#[derive(Clone, Copy, Debug, PartialEq, Eq)]
pub enum RewriteRefusal {
    Reading(Refusal),
    Writing(Refusal),
}

// A text in the format `from`, rewritten in the format `to`, by a float of either width. On a refusal the bytes lent are as they were.
pub fn rewrite_float<F: Float>(
    text: &[u8],
    from: TextFormat,
    to: TextFormat,
    buffer: &mut [u8],
) -> Result<usize, RewriteRefusal>
    ensures result_value { of_rewritten result ≡ rewrite_answer to buffer.old (read_in F.format from text.now) }
    ensures buffer_after { buffer.new ≡ rewrite_bytes to buffer.old (read_in F.format from text.now) }
    ensures same_bytes { SameAsOthers F.format from text.now to buffer.old (of_rewritten result) buffer.new }
{
    let x: F = read_float(text, from.format, from.options).map_err(RewriteRefusal::Reading)?;
    write_float(x, to.format, to.options, buffer).map_err(RewriteRefusal::Writing)
}
