// What a line says that a call answers, and whether it did.
ghost use Rattle.std.specs.Prelude.{◌<◌, length, IfOk};

use crate::fields::{self, Fields, Malformed};
use crate::tally::Verdict;
use crate::{lent, numbers};
use lexical_util::Refusal;

// A refusal as a line tells it: by a number, which no reason need have, and a place.
#[derive(Clone, Copy, Debug, PartialEq, Eq)]
pub(crate) struct Told {
    pub number: u32,
    pub place: usize,
}

impl From<Refusal> for Told {
    fn from(refusal: Refusal) -> Told {
        Told {
            number: refusal.reason.number(),
            place: refusal.place,
        }
    }
}

// `refused N at P`, where an answer begins so.
pub(crate) fn refusal_in(s: &[u8]) -> Result<Option<Told>, Malformed> {
    let mut fields = Fields::of(s);
    if fields.word()? != b"refused".as_slice() {
        return Ok(None);
    }
    let number = fields.count()?;
    if fields.word()? != b"at".as_slice() {
        return Err(Malformed);
    }
    let place = fields.number()? as usize;
    fields.end()?;
    Ok(Some(Told { number, place }))
}

// `length text`, the text with as many bytes as the length says, and not empty; or a refusal.
pub(crate) fn of_text(s: &[u8]) -> Result<Result<&[u8], Told>, Malformed>
    ensures { IfOk result (λ w. IfOk w (λ text. 0 < length text.now)) }
{
    if let Some(told) = refusal_in(s)? {
        return Ok(Err(told));
    }
    let (length, text) = fields::split_once(s, b' ').ok_or(Malformed)?;
    if text.is_empty() || numbers::decimal(length) != Some(text.len() as u64) {
        return Err(Malformed);
    }
    Ok(Ok(text))
}

// Whether a call that writes gave a line's answer: a text of this length, which stands at the start, or this refusal; and left every other byte as it was.
pub(crate) fn is_given(
    given: Result<usize, Refusal>,
    wanted: Result<&[u8], Told>,
    out: &[u8],
) -> bool {
    match wanted {
        Ok(text) => given == Ok(text.len()) && lent::holds(out, text),
        Err(told) => given.map_err(Told::from) == Err(told) && lent::is_filled(out),
    }
}

// The same of a line that is asked for once.
pub(crate) fn judge(
    given: Result<usize, Refusal>,
    wanted: Result<&[u8], Told>,
    out: &[u8],
) -> Verdict {
    if is_given(given, wanted, out) {
        Verdict::Agrees
    } else {
        Verdict::Differs(0)
    }
}
