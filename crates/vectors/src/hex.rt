// A field of bytes in hexadecimal.
use crate::fields::Malformed;
use crate::numbers;

// The byte of two hexadecimal digits.
fn byte_of(pair: &[u8]) -> Option<u8> {
    let [high, low] = pair else {
        return None;
    };
    let high = numbers::digit_of(*high, true)?;
    let low = numbers::digit_of(*low, true)?;
    Some(high * 16 + low)
}

// The bytes of some hexadecimal digits, stored from the start on; none where the field is `-`.
pub(crate) fn bytes<'a>(digits: &[u8], out: &'a mut [u8]) -> Result<&'a [u8], Malformed> {
    if digits == b"-".as_slice() {
        return Ok(&[]);
    }
    if digits.is_empty() || digits.len() % 2 != 0 {
        return Err(Malformed);
    }
    let out = out.get_mut(..digits.len() / 2).ok_or(Malformed)?;
    for (pair, byte) in digits.chunks_exact(2).zip(out.iter_mut()) {
        *byte = byte_of(pair).ok_or(Malformed)?;
    }
    Ok(out)
}
