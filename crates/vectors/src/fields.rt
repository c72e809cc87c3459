// A line's fields, with a space between two, taken one after another.
ghost use Rattle.std.specs.Prelude.{◌<◌, IfSome, length};

use crate::numbers;
use lexical_float::Width;
use std::fmt;

// What is no line of a list, or no field of the kind that is asked for.
#[derive(Clone, Copy, Debug, PartialEq, Eq)]
pub(crate) struct Malformed;

// As the program tells it.
impl fmt::Display for Malformed {
    fn fmt<W: fmt::Write>(&self, f: &mut fmt::Formatter<W>) -> fmt::Result {
        write!(f, "malformed")
    }
}

// What stands before the first such byte, and what behind it.
pub(crate) fn split_once(s: &[u8], byte: u8) -> Option<(&[u8], &[u8])>
    ensures { IfSome result (λ p. length p.1.now < length s.now) }
{
    let end = s.iter().position(|b| *b == byte)?;
    Some((&s[..end], &s[end + 1..]))
}

// The fields that are left, none once the last is taken.
#[derive(Clone, Copy)]
pub(crate) struct Fields<'a> {
    left: Option<&'a [u8]>,
}

impl<'a> Fields<'a> {
    pub(crate) fn of(line: &'a [u8]) -> Fields<'a> {
        Fields { left: Some(line) }
    }

    // Whether none is left.
    pub(crate) fn is_empty(&self) -> bool {
        self.left.is_none()
    }

    // The next field, whatever it is.
    pub(crate) fn word(&mut self) -> Result<&'a [u8], Malformed> {
        let left = self.left.ok_or(Malformed)?;
        match split_once(left, b' ') {
            Some((word, behind)) => {
                self.left = Some(behind);
                Ok(word)
            }
            None => {
                self.left = None;
                Ok(left)
            }
        }
    }

    // A line that has more fields than it should is malformed.
    pub(crate) fn end(&self) -> Result<(), Malformed> {
        if self.is_empty() {
            Ok(())
        } else {
            Err(Malformed)
        }
    }

    pub(crate) fn number(&mut self) -> Result<u64, Malformed> {
        numbers::decimal(self.word()?).ok_or(Malformed)
    }

    // A float's bits, in hexadecimal.
    pub(crate) fn bits(&mut self) -> Result<u64, Malformed> {
        numbers::hexadecimal(self.word()?).ok_or(Malformed)
    }

    pub(crate) fn count(&mut self) -> Result<u32, Malformed> {
        u32::try_from(self.number()?).map_err(|_| Malformed)
    }

    pub(crate) fn byte(&mut self) -> Result<u8, Malformed> {
        u8::try_from(self.number()?).map_err(|_| Malformed)
    }

    pub(crate) fn flag(&mut self) -> Result<bool, Malformed> {
        match self.number()? {
            0 => Ok(false),
            1 => Ok(true),
            _ => Err(Malformed),
        }
    }

    // A signed number, but the least.
    pub(crate) fn int(&mut self) -> Result<i32, Malformed> {
        numbers::signed(self.word()?).ok_or(Malformed)
    }

    pub(crate) fn width(&mut self) -> Result<Width, Malformed> {
        match self.number()? {
            64 => Ok(Width::Binary64),
            32 => Ok(Width::Binary32),
            _ => Err(Malformed),
        }
    }
}
