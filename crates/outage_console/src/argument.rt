// A format as a program's argument: RADIX/BASE/EXPONENT-RADIX.
ghost use Rattle.std.specs.Prelude.{◌≡◌, IfSome};
ghost use Rattle.outage_spec.specs.Format.{sheet_in};
ghost use Rattle.outage_console.specs.Argument.{admitted, of_numbers, format_named};

use lexical_format::{NumberFormat, Options, RoundMode};
use lexical_rewrite_spec::TextFormat;
use outage::{find, read_number};
use std::env::Env;

// Exponent required, point ".", mark "p", all else absent or default.
pub fn sheet_in(radix: u32, base: u32, exponent_radix: u32) -> TextFormat
    ensures { result ≡ sheet_in radix base exponent_radix }
{
    TextFormat {
        format: NumberFormat {
            mantissa_radix: radix,
            exponent_base: base,
            exponent_radix,
            required_exponent_notation: true,
            no_exponent_notation: false,
            required_exponent_sign: false,
            no_exponent_without_fraction: false,
        },
        options: Options {
            max_significant_digits: 0,
            min_significant_digits: 0,
            positive_exponent_break: 0,
            negative_exponent_break: 0,
            exponent_width: 1,
            round_mode: RoundMode::Round,
            trim_floats: false,
            exponent: b'p',
            decimal_point: b'.',
        },
    }
}

// A format that is admitted, or none.
fn admitted(format: TextFormat) -> Option<TextFormat>
    ensures { result ≡ admitted format }
{
    match lexical_format::check(format.format, format.options) {
        Ok(_) => Some(format),
        Err(_) => None,
    }
}

fn of_numbers(
    radix: Option<u32>,
    base: Option<u32>,
    exponent_radix: Option<u32>,
) -> Option<TextFormat>
    ensures { result ≡ of_numbers radix base exponent_radix }
{
    let r = radix?;
    let b = base?;
    let e = exponent_radix?;
    admitted(sheet_in(r, b, e))
}

// Three numbers with "/" between them, none above 32.
pub fn read_format(text: &[u8]) -> Option<TextFormat>
    ensures { result ≡ format_named text.now }
{
    let first = find(text, b'/');
    if first == text.len() {
        return None;
    }
    let from = first + 1;
    let rest = &text[from..];
    let second = find(rest, b'/');
    if second == rest.len() {
        return None;
    }
    let last = second + 1;
    let radix = read_number(&text[0..first], 32);
    let base = read_number(&rest[0..second], 32);
    of_numbers(radix, base, read_number(&rest[last..], 32))
}

// Bytes for an argument. No format's name is as long, so a longer argument names none.
const ARGUMENT_ROOM: usize = 4096;

// The format that a program's argument names, if it names one that the writer admits. Argument 0 is the program's own name.
pub fn format_argument(rt: &impl Env, i: usize) -> Option<TextFormat>
    ensures { IfSome result (λ format. admitted format ≡ Some format) }
{
    let mut text = [0u8; ARGUMENT_ROOM];
    let n = rt.arg(i, &mut text).ok()?;
    read_format(&text[..n])
}
