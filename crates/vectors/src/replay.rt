// A list's lines through the compiled calls.
ghost use Rattle.std.specs.Prelude.{◌+◌, ◌-◌, ◌^◌, ◌≤◌, ◌<◌, IfOk};
ghost use Rattle.vectors.specs.Counts.{Counts};

use crate::fields::{self, Fields, Malformed};
use crate::tally::{Tally, Verdict};
use crate::{digits, reading, tables, tally, writing};
use std::io;

// So many lines that do not agree are printed for each list.
const SHOWN: usize = 5;

#[derive(Clone, Copy, Debug, PartialEq, Eq)]
enum Kind {
    Digits,
    Reading,
    Table,
    Writing,
}

// What a line asks for, by its first word. One without such a word is a writing line.
fn kind_of(input: &[u8]) -> Kind {
    match Fields::of(input).word() {
        Ok(b"D") => Kind::Digits,
        Ok(b"R") => Kind::Reading,
        Ok(b"P" | b"U" | b"T" | b"S") => Kind::Table,
        _ => Kind::Writing,
    }
}

fn judge(input: &[u8], answer: &[u8]) -> Result<Verdict, Malformed> {
    match kind_of(input) {
        Kind::Digits => digits::judge(input, answer),
        Kind::Reading => reading::judge(input, answer),
        Kind::Table => tables::judge(input, answer),
        Kind::Writing => writing::judge(input, answer),
    }
}

// A line is an input, a tab, and the answer.
fn judge_line(line: &[u8]) -> Result<Verdict, Malformed> {
    let (input, answer) = fields::split_once(line, b'\t').ok_or(Malformed)?;
    judge(input, answer)
}

// What the call of a line that differs answered: it is made again.
fn show_given(rt: &impl Print, line: &[u8], room: usize) -> io::Result<()> {
    let Some((input, _)) = fields::split_once(line, b'\t') else {
        return Ok(());
    };
    match kind_of(input) {
        Kind::Digits => digits::show(rt, input),
        Kind::Reading => reading::show(rt, input),
        Kind::Table => tables::show(rt, input),
        Kind::Writing => writing::show(rt, input, room),
    }
}

// A line that does not agree: `<name>, line <line>: <what was answered>`.
fn show(
    rt: &impl Print,
    name: &str,
    number: usize,
    line: &[u8],
    verdict: Result<Verdict, Malformed>,
) -> io::Result<()> {
    match verdict {
        Ok(Verdict::Agrees) => Ok(()),
        Ok(Verdict::Differs(room)) => {
            print!(rt; "{name}, line {number}: ")?;
            show_given(rt, line, room)?;
            println!(rt; "")
        }
        Err(malformed) => println!(rt; "{name}, line {number}: {malformed}"),
    }
}

// The counts with one line more, where it is no comment.
fn replay_line(
    rt: &impl Print,
    name: &str,
    number: usize,
    line: &[u8],
    tally: Tally,
) -> io::Result<Tally>
    requires { Counts tally × (tally.lines < 2 ^ 64 - 1) }
    ensures { IfOk result (λ t. Counts t × (t.lines ≤ tally.lines + 1)) }
{
    if line.starts_with(b"#") {
        return Ok(tally);
    }
    let verdict = judge_line(line);
    if tally.lines - tally.agree < SHOWN {
        show(rt, name, number, line, verdict)?;
    }
    Ok(tally::counted(tally, verdict))
}

// Line by line. A `while` over what is left, since what std's `split_inclusive` gives takes no invariant here.
pub(crate) fn list(rt: &impl Print, name: &str, bytes: &[u8]) -> io::Result<Tally> {
    let mut tally = Tally {
        lines: 0,
        agree: 0,
        malformed: 0,
    };
    let mut number = 0;
    let mut left = bytes;
    while !left.is_empty() {
        number += 1;
        let (line, behind) = fields::split_once(left, b'\n').unwrap_or((left, &[]));
        tally = replay_line(rt, name, number, line, tally)?;
        left = behind;
    }
    Ok(tally)
}
