// Where a byte stands, and a number in radix 10 without leading zeros: document 01, "Outage table and sheet".
ghost use Rattle.std.specs.Prelude.{◌≡◌, ◌≤◌, length};
ghost use Rattle.outage_spec.specs.Sheet.{before, number_in};
ghost use Rattle.outage.specs.Code.{number_on};

use lexical_digit_reader::next_digit;

// Where a byte first stands, or the length.
pub fn find(text: &[u8], byte: u8) -> usize
    ensures value { result ≡ length (before byte text.now) }
    ensures within { result ≤ length text.now }
{
    for (at, here) in text.iter().enumerate() {
        if *here == byte {
            return at;
        }
    }
    text.len()
}

// Digits of radix 10 only, whose number is at most the limit. It is held against the limit at each digit, so that no number of digits makes it wrap.
fn number_on(text: &[u8], limit: u32) -> Option<u32>
    ensures { result ≡ number_on limit 0 text.now }
{
    let mut value: u32 = 0;
    for at in 0..text.len() {
        let digit = next_digit(text, at).digit?;
        if digit > 9 {
            return None;
        }
        let next = value as u64 * 10 + digit as u64;
        if next > limit as u64 {
            return None;
        }
        value = next as u32;
    }
    Some(value)
}

// At least one digit, and no "0" in front of others.
pub fn read_number(text: &[u8], limit: u32) -> Option<u32>
    ensures { result ≡ number_in limit text.now }
{
    if text.len() == 0 {
        return None;
    }
    if text.len() > 1 {
        if text[0] == b'0' {
            return None;
        }
    }
    number_on(text, limit)
}
