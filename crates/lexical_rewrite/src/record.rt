// A format from its record. Bytes that are missing count as 0.
ghost use Rattle.std.specs.Prelude.{◌≡◌, ◌<◌};
ghost use Rattle.lexical_rewrite_spec.specs.Record.{byte_at, flag_at, mode_at, two_bytes_at, twos_complement, number_format_of_record, options_of_record, format_of_record, record_size};

use lexical_format::{NumberFormat, Options, RoundMode};
use lexical_rewrite_spec::TextFormat;

// How many bytes a record has.
pub const RECORD_SIZE: usize = 20;

fn byte_at(bytes: &[u8], at: usize) -> u8
    ensures { result ≡ byte_at bytes.now at }
{
    if at < bytes.len() { bytes[at] } else { 0 }
}

fn flag_at(bytes: &[u8], at: usize) -> bool
    ensures { result ≡ flag_at bytes.now at }
{
    byte_at(bytes, at) != 0
}

fn mode_at(bytes: &[u8], at: usize) -> RoundMode
    ensures { result ≡ mode_at bytes.now at }
{
    if flag_at(bytes, at) {
        RoundMode::Truncate
    } else {
        RoundMode::Round
    }
}

fn two_bytes_at(bytes: &[u8], at: usize) -> u32
    requires { at < record_size }
    ensures value { result ≡ two_bytes_at bytes.now at }
    ensures small { result < 65536 }
{
    let low = byte_at(bytes, at);
    let high = byte_at(bytes, at + 1);
    low as u32 + 256 * high as u32
}

fn signed_at(bytes: &[u8], at: usize) -> i32
    requires { at < record_size }
    ensures { result ≡ twos_complement (two_bytes_at bytes.now at) }
{
    let word = two_bytes_at(bytes, at);
    if word < 32768 {
        return word as i32;
    }
    let below = 65535 - word;
    -1 - below as i32
}

fn number_format_of_record(bytes: &[u8]) -> NumberFormat
    ensures { result ≡ number_format_of_record bytes.now }
{
    NumberFormat {
        mantissa_radix: byte_at(bytes, 0) as u32,
        exponent_base: byte_at(bytes, 1) as u32,
        exponent_radix: byte_at(bytes, 2) as u32,
        required_exponent_notation: flag_at(bytes, 3),
        no_exponent_notation: flag_at(bytes, 4),
        required_exponent_sign: flag_at(bytes, 5),
        no_exponent_without_fraction: flag_at(bytes, 6),
    }
}

fn options_of_record(bytes: &[u8]) -> Options
    ensures { result ≡ options_of_record bytes.now }
{
    Options {
        max_significant_digits: two_bytes_at(bytes, 9),
        min_significant_digits: two_bytes_at(bytes, 11),
        positive_exponent_break: signed_at(bytes, 13),
        negative_exponent_break: signed_at(bytes, 15),
        exponent_width: byte_at(bytes, 17) as u32,
        round_mode: mode_at(bytes, 8),
        trim_floats: flag_at(bytes, 7),
        exponent: byte_at(bytes, 19),
        decimal_point: byte_at(bytes, 18),
    }
}

// The format of the record in front.
pub fn format_of_record(bytes: &[u8]) -> TextFormat
    ensures { result ≡ format_of_record bytes.now }
{
    TextFormat {
        format: number_format_of_record(bytes),
        options: options_of_record(bytes),
    }
}
