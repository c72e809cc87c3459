// A text rewritten, by one station or by a chain of them. A call for each width, since C has no generic ones.
ghost use Rattle.std.specs.Prelude.{◌≡◌};
ghost use Rattle.std.specs.Float.{binary32, binary64};
ghost use Rattle.lexical_rewrite_spec.specs.Rewrite.{read_in, rewrite_answer, rewrite_bytes};
ghost use Rattle.lexical_rewrite_spec.specs.Record.{formats_of};
ghost use Rattle.lexical_rewrite_spec.specs.Chain.{at_station, chain_of};
ghost use Rattle.export_structs.specs.Structs.{text_format_of, station_answer_of};

use export_structs::{Format, StationAnswer};

#[unsafe(no_mangle)]
pub extern "C" fn lexical_rewrite_f64(
    text: &[u8],
    from: Format,
    to: Format,
    buffer: &mut [u8],
) -> StationAnswer
    ensures value { result ≡ station_answer_of (at_station 0 (rewrite_answer (text_format_of to) buffer.old (read_in binary64 (text_format_of from) text.now))) }
    ensures buffer_after { buffer.new ≡ rewrite_bytes (text_format_of to) buffer.old (read_in binary64 (text_format_of from) text.now) }
{
    lexical_rewrite::rewrite_float::<f64>(text, from.into(), to.into(), buffer).into()
}

#[unsafe(no_mangle)]
pub extern "C" fn lexical_rewrite_f32(
    text: &[u8],
    from: Format,
    to: Format,
    buffer: &mut [u8],
) -> StationAnswer
    ensures value { result ≡ station_answer_of (at_station 0 (rewrite_answer (text_format_of to) buffer.old (read_in binary32 (text_format_of from) text.now))) }
    ensures buffer_after { buffer.new ≡ rewrite_bytes (text_format_of to) buffer.old (read_in binary32 (text_format_of from) text.now) }
{
    lexical_rewrite::rewrite_float::<f32>(text, from.into(), to.into(), buffer).into()
}

// Each further station is a record, one behind the other.
#[unsafe(no_mangle)]
pub extern "C" fn lexical_chain_f64(
    text: &[u8],
    from: Format,
    first: Format,
    further: &[u8],
    buffer: &mut [u8],
) -> StationAnswer
    ensures value { result ≡ station_answer_of (chain_of binary64 (text_format_of from) text.now (text_format_of first) (formats_of further.now) buffer.old).answer }
    ensures buffer_after { buffer.new ≡ (chain_of binary64 (text_format_of from) text.now (text_format_of first) (formats_of further.now) buffer.old).bytes }
{
    lexical_rewrite::chain_float::<f64>(text, from.into(), first.into(), further, buffer).into()
}

#[unsafe(no_mangle)]
pub extern "C" fn lexical_chain_f32(
    text: &[u8],
    from: Format,
    first: Format,
    further: &[u8],
    buffer: &mut [u8],
) -> StationAnswer
    ensures value { result ≡ station_answer_of (chain_of binary32 (text_format_of from) text.now (text_format_of first) (formats_of further.now) buffer.old).answer }
    ensures buffer_after { buffer.new ≡ (chain_of binary32 (text_format_of from) text.now (text_format_of first) (formats_of further.now) buffer.old).bytes }
{
    lexical_rewrite::chain_float::<f32>(text, from.into(), first.into(), further, buffer).into()
}
