// How a line went, and how many lines went so.
ghost use Rattle.std.specs.Prelude.{◌+◌, ◌-◌, ◌^◌, ◌≤◌, ◌<◌};
ghost use Rattle.vectors.specs.Counts.{Counts};

use crate::fields::Malformed;
use std::fmt;

// A line that differs, with how many bytes lent to be written.
#[derive(Clone, Copy, Debug, PartialEq, Eq)]
pub(crate) enum Verdict {
    Agrees,
    Differs(usize),
}

#[derive(Clone, Copy, Debug, PartialEq, Eq)]
pub(crate) struct Tally {
    pub lines: usize,
    pub agree: usize,
    pub malformed: usize,
}

// As the program tells it.
impl fmt::Display for Tally {
    fn fmt<W: fmt::Write>(&self, f: &mut fmt::Formatter<W>) -> fmt::Result {
        write!(
            f,
            "{} lines, {} agree, {} malformed",
            self.lines, self.agree, self.malformed
        )
    }
}

// The counts with one line more.
pub(crate) fn counted(tally: Tally, verdict: Result<Verdict, Malformed>) -> Tally
    requires { Counts tally × (tally.lines < 2 ^ 64 - 1) }
    ensures { Counts result × (result.lines ≤ tally.lines + 1) }
{
    let lines = tally.lines + 1;
    match verdict {
        Ok(Verdict::Agrees) => Tally {
            lines,
            agree: tally.agree + 1,
            ..tally
        },
        Ok(Verdict::Differs(_)) => Tally { lines, ..tally },
        Err(Malformed) => Tally {
            lines,
            malformed: tally.malformed + 1,
            ..tally
        },
    }
}
