// Radices, least widths, and the digit that a byte stands for.
ghost use Rattle.std.specs.Prelude.{◌≡◌};
ghost use Rattle.lexical_util.specs.Digit.{digit_value, is_radix, is_width, digit_bits};

// 0 to 9 for "0" to "9", 10 to 31 for "A" to "V"; no other byte is a digit of any radix.
pub fn digit_value(byte: u8) -> Option<u8>
    ensures { result ≡ digit_value byte }
{
    match byte {
        b'0'..=b'9' => Some(byte - b'0'),
        b'A'..=b'V' => Some(byte - b'A' + 10),
        _ => None,
    }
}

// The radices of integers and of exponents.
pub fn is_radix(radix: u32) -> bool
    ensures { result ≡ is_radix radix }
{
    matches!(radix, 2 | 4 | 8 | 10 | 16 | 32)
}

// A least width of digits is from 1 to 4: document 02, 2.2.
const GREATEST_WIDTH: u32 = 4;

pub fn is_width(width: u32) -> bool
    ensures { result ≡ is_width width }
{
    1 <= width && width <= GREATEST_WIDTH
}

// The bits of a digit: b of radix 2^b for 2, 4, 8, 16 and 32, and 0 for any other number.
pub fn digit_bits(radix: u32) -> u32
    ensures { result ≡ digit_bits radix }
{
    match radix {
        2 => 1,
        4 => 2,
        8 => 3,
        16 => 4,
        32 => 5,
        _ => 0,
    }
}
