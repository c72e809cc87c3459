// A refusal as a line.
ghost use Rattle.std.specs.Prelude.{◌≤◌, length};
ghost use Rattle.lexical_util.specs.Reason.{reason_number};
ghost use Rattle.lexical_buffer.specs.Put.{Puts};
ghost use Rattle.outage_console.specs.Screen.{refusal_line};

use lexical_buffer::{put_byte, put_bytes, put_number};
use lexical_util::Refusal;

// "refused N at P" and LF at the front.
pub(crate) fn put_refusal(out: &mut [u8], refusal: Refusal) -> usize
    requires { 64 ≤ length out.old }
    ensures { Puts out.old 0 (refusal_line (reason_number refusal.reason) refusal.place) result out.new }
{
    let number = put_bytes(out, 0, b"refused ");
    let at = put_number(out, number, refusal.reason.number() as u64, 10, 1);
    let place = put_bytes(out, at, b" at ");
    let newline = put_number(out, place, refusal.place as u64, 10, 1);
    put_byte(out, newline, b'\n')
}
