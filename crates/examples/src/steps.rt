// The digits call step by step, from the front: after each step the bytes so far, and behind them what was lent.
use crate::digits::Asked;
use crate::print;
use lexical_write_integer::write_step;
use std::io;

// One step from `at` bytes on: `<radix> <value> <bytes that stand then> [<all bytes>]`. What stood before is answered where it is refused.
fn step_line(rt: &impl Print, asked: Asked, at: usize, out: &mut [u8]) -> io::Result<usize> {
    let answer = write_step(asked.value, asked.radix, asked.width, at, out);
    match answer {
        Ok(next) => print!(rt; "{asked} {next}")?,
        Err(refusal) => print!(rt; "{asked} {refusal}")?,
    }
    print::held(rt, out)?;
    Ok(answer.unwrap_or(at))
}

// So many steps, each from where the one before it ended.
fn steps(rt: &impl Print, asked: Asked, count: usize, out: &mut [u8]) -> io::Result<()> {
    let mut at = 0;
    for _ in 0..count {
        at = step_line(rt, asked, at, out)?;
    }
    Ok(())
}

// Value, radix, width, how many steps, and how many bytes are lent. A step more than the digits need adds nothing.
const STEPS: [(u64, u32, u32, usize, usize); 11] = [
    (1234567, 2, 1, 12, 24),
    (1234567, 4, 1, 7, 12),
    (1234567, 8, 1, 5, 9),
    (1234567, 16, 1, 4, 8),
    (1234567, 32, 1, 4, 8),
    (u64::MAX, 8, 1, 12, 22),
    (u64::MAX, 32, 1, 8, 13),
    (0, 2, 1, 2, 3),
    (0, 32, 4, 3, 5),
    (5, 16, 3, 3, 5),
    (5, 2, 4, 3, 5),
];

// Radix, width, the bytes that stand, and how many are lent: one step of 1,234,567.
const ALONE: [(u32, u32, usize, usize); 10] = [
    // the bytes in front are as they were, whatever they are
    (16, 1, 1, 8),
    (32, 1, 3, 8),
    (16, 1, 7, 8),
    (16, 1, 9, 8),
    // refused: no such radix, and 10; no such width; too few bytes
    (7, 0, 0, 8),
    (10, 0, 0, 8),
    (16, 0, 0, 8),
    (16, 5, 0, 5),
    (16, 1, 0, 5),
    (16, 1, 4, 5),
];

pub(crate) fn run(rt: &impl Print) -> io::Result<()> {
    for (value, radix, width, count, room) in STEPS {
        let asked = Asked {
            value,
            radix,
            width,
        };
        if let Some(out) = [b'.'; 24].get_mut(..room) {
            steps(rt, asked, count, out)?;
        }
    }
    for (radix, width, at, room) in ALONE {
        let asked = Asked {
            value: 1234567,
            radix,
            width,
        };
        if let Some(out) = [b'.'; 8].get_mut(..room) {
            step_line(rt, asked, at, out)?;
        }
    }
    Ok(())
}
