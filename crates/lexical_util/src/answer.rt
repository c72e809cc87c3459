// What a call answers: document 01, "What each call returns". A call that writes answers `Result<usize, Refusal>`, the length written.
ghost use Rattle.std.specs.Prelude.{◌≡◌};
ghost use Rattle.lexical_util.specs.Reason.{reason_number, refusal_at};

use std::fmt;

// Why a call refuses, each by its number in documents 01 and 02.
#[derive(Clone, Copy, Debug, PartialEq, Eq)]
pub enum Reason {
    UnknownPair = 1,
    UnknownRadix = 2,
    BadByte = 3,
    RequiredAndForbidden = 4,
    BadCount = 5,
    BadBreak = 6,
    NotFinite = 7,
    NoRoom = 8,
    WrongShape = 9,
    ExponentTooGreat = 10,
    TooLarge = 11,
    TooLong = 12,
    WrongTable = 13,
    EndBelowStart = 14,
    WrongSheet = 15,
    BadWidth = 16,
    WrongPacked = 17,
}

impl Reason {
    pub fn number(self) -> u32
        ensures { result ≡ reason_number self }
    {
        self as u32
    }

    // The refusal for this reason at a place, which is 0 unless document 01 gives one.
    pub fn at(self, place: usize) -> Refusal
        ensures { result ≡ refusal_at self place }
    {
        Refusal {
            reason: self,
            place,
        }
    }
}

// A refusal: its reason, and a place.
#[derive(Clone, Copy, Debug, PartialEq, Eq)]
pub struct Refusal {
    pub reason: Reason,
    pub place: usize,
}

// As the programs tell it.
impl fmt::Display for Refusal {
    fn fmt<W: fmt::Write>(&self, f: &mut fmt::Formatter<W>) -> fmt::Result {
        write!(f, "refused {} at {}", self.reason.number(), self.place)
    }
}
