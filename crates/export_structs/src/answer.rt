// Answers as they cross. No enum does, so each is a struct of numbers, and no generic struct, which an exported function cannot have in its signature: the refusal's number, 0 where nothing was refused, its place, and what was asked for.
ghost use Rattle.std.specs.Prelude.{◌≡◌, cond};
ghost use Rattle.lexical_util.specs.Answer.{refused, of_result};
ghost use Rattle.lexical_rewrite_spec.specs.Chain.{reading_refused_at, writing_refused_at, at_station};
ghost use Rattle.lexical_rewrite.specs.Answer.{of_rewritten, of_chained};
ghost use Rattle.export_structs.specs.Code.{parts_of};
ghost use Rattle.export_structs.specs.Structs.{answer_of, answer_f64_of, answer_f32_of, station_answer_of};

use lexical_rewrite::{ChainRefusal, RewriteRefusal};
use lexical_util::Refusal;

// The value is the length written.
#[repr(C)]
#[derive(Clone, Copy)]
pub struct Answer {
    pub number: u32,
    pub place: usize,
    pub value: usize,
}

// The value is the float read.
#[repr(C)]
#[derive(Clone, Copy)]
pub struct AnswerF64 {
    pub number: u32,
    pub place: usize,
    pub value: f64,
}

#[repr(C)]
#[derive(Clone, Copy)]
pub struct AnswerF32 {
    pub number: u32,
    pub place: usize,
    pub value: f32,
}

// The value is the length of the last text. A refusal has the station's number, counted from 0, and whether its writing refused and not its reading. A rewriting is one station.
#[repr(C)]
#[derive(Clone, Copy)]
pub struct StationAnswer {
    pub number: u32,
    pub writing: bool,
    pub station: usize,
    pub place: usize,
    pub value: usize,
}

// A refusal by any number and place, also one that no `Reason` has.
impl Answer {
    pub fn refused(number: u32, place: usize) -> Answer
        ensures { result ≡ answer_of (refused number place) }
    {
        let value = 0;
        Answer {
            number,
            place,
            value,
        }
    }
}

impl AnswerF64 {
    pub fn refused(number: u32, place: usize) -> AnswerF64
        ensures { result ≡ answer_f64_of (refused number place) }
    {
        let value: f64 = 0.0;
        AnswerF64 {
            number,
            place,
            value,
        }
    }
}

impl AnswerF32 {
    pub fn refused(number: u32, place: usize) -> AnswerF32
        ensures { result ≡ answer_f32_of (refused number place) }
    {
        let value: f32 = 0.0;
        AnswerF32 {
            number,
            place,
            value,
        }
    }
}

impl StationAnswer {
    // The station's writing refused, or its reading.
    pub fn refused(number: u32, writing: bool, station: usize, place: usize) -> StationAnswer
        ensures { result ≡ station_answer_of (cond writing (writing_refused_at station number place) (reading_refused_at station number place)) }
    {
        let value: usize = 0;
        StationAnswer {
            number,
            writing,
            station,
            place,
            value,
        }
    }
}

// Number, place and value, as each answer has them: a refusal has what is given for none.
fn parts<T: Copy>(answer: Result<T, Refusal>, none: T) -> (u32, usize, T)
    ensures { result ≡ parts_of none (of_result answer) }
{
    match answer {
        Ok(value) => (0, 0, value),
        Err(refusal) => (refusal.reason.number(), refusal.place, none),
    }
}

impl From<Result<usize, Refusal>> for Answer {
    ghost from_gives = { λ written answer. answer ≡ answer_of (of_result written) };

    fn from(written: Result<usize, Refusal>) -> Answer {
        let (number, place, length) = parts(written, 0);
        Answer {
            number,
            place,
            value: length,
        }
    }
}

impl From<Result<f64, Refusal>> for AnswerF64 {
    ghost from_gives = { λ read answer. answer ≡ answer_f64_of (of_result read) };

    fn from(read: Result<f64, Refusal>) -> AnswerF64 {
        let (number, place, double) = parts(read, 0.0);
        AnswerF64 {
            number,
            place,
            value: double,
        }
    }
}

impl From<Result<f32, Refusal>> for AnswerF32 {
    ghost from_gives = { λ read answer. answer ≡ answer_f32_of (of_result read) };

    fn from(read: Result<f32, Refusal>) -> AnswerF32 {
        let (number, place, single) = parts(read, 0.0);
        AnswerF32 {
            number,
            place,
            value: single,
        }
    }
}

impl From<Result<usize, ChainRefusal>> for StationAnswer {
    ghost from_gives = { λ chained answer. answer ≡ station_answer_of (of_chained chained) };

    fn from(chained: Result<usize, ChainRefusal>) -> StationAnswer {
        match chained {
            Ok(last) => StationAnswer {
                number: 0,
                writing: false,
                station: 0,
                place: 0,
                value: last,
            },
            Err(ChainRefusal { station, refusal }) => {
                let (writing, refusal) = match refusal {
                    RewriteRefusal::Reading(refusal) => (false, refusal),
                    RewriteRefusal::Writing(refusal) => (true, refusal),
                };
                StationAnswer::refused(refusal.reason.number(), writing, station, refusal.place)
            }
        }
    }
}

impl From<Result<usize, RewriteRefusal>> for StationAnswer {
    ghost from_gives = { λ rewritten answer. answer ≡ station_answer_of (at_station 0 (of_rewritten rewritten)) };

    fn from(rewritten: Result<usize, RewriteRefusal>) -> StationAnswer {
        let station = 0;
        StationAnswer::from(rewritten.map_err(|refusal| ChainRefusal { station, refusal }))
    }
}
