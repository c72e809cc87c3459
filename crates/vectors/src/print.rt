// What the program prints with.
use crate::fields::Malformed;
use lexical_util::Refusal;
use std::{fmt, io};

// What a call answered, or its refusal, or that the line is malformed.
pub(crate) fn answer<T: Copy + fmt::Display>(
    rt: &impl Print,
    given: Result<Result<T, Refusal>, Malformed>,
) -> io::Result<()> {
    match given {
        Ok(Ok(answer)) => print!(rt; "{answer}"),
        Ok(Err(refusal)) => print!(rt; "{refusal}"),
        Err(malformed) => print!(rt; "{malformed}"),
    }
}
