// A field's number.
ghost use Rattle.std.specs.Prelude.{◌<◌, IfSome};

// The value of a digit.
pub(crate) fn digit_of(byte: u8, hex: bool) -> Option<u8>
    ensures { IfSome result (λ d. d < 16) }
{
    match byte {
        b'0'..=b'9' => Some(byte - b'0'),
        b'a'..=b'f' if hex => Some(byte - b'a' + 10),
        _ => None,
    }
}

// The number of some digits, where there are any and a u64 holds it.
fn digits(s: &[u8], hex: bool) -> Option<u64> {
    if s.is_empty() {
        return None;
    }
    let radix = if hex { 16 } else { 10 };
    let mut value: u64 = 0;
    for byte in s {
        let digit = digit_of(*byte, hex)?;
        value = value.checked_mul(radix)?.checked_add(u64::from(digit))?;
    }
    Some(value)
}

pub(crate) fn decimal(s: &[u8]) -> Option<u64> {
    digits(s, false)
}

pub(crate) fn hexadecimal(s: &[u8]) -> Option<u64> {
    digits(s, true)
}

// A decimal number that may have a minus sign, where an i32 holds it and its negation.
pub(crate) fn signed(s: &[u8]) -> Option<i32> {
    match s.strip_prefix(b"-") {
        Some(magnitude) => Some(-i32::try_from(decimal(magnitude)?).ok()?),
        None => i32::try_from(decimal(s)?).ok(),
    }
}
