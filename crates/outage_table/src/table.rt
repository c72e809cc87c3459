// What a table holds behind its header: its rows.
ghost use Rattle.std.specs.Prelude.{◌≡◌, ◌+◌, ◌≤◌, ◌<◌, length};
ghost use Rattle.lexical_util.specs.Answer.{of_result};
ghost use Rattle.outage_spec.specs.Table.{table_size, row_at, rows_from, most_windows, float_size};
ghost use Rattle.outage_spec.specs.Words.{word_at};
ghost use Rattle.outage_table.specs.Rows.{AreRows};

use lexical_float::{Width, is_special};
use lexical_util::{Reason, Refusal};
use outage::{FLOAT_SIZE, HEADER_SIZE, header_count, word_of};
use outage_spec::Window;

// A table whose header is right: its bytes, and how many rows they hold.
#[derive(Clone, Copy)]
pub(crate) struct Table<'a> {
    pub(crate) bytes: &'a [u8],
    pub(crate) rows: usize,
    ghost few: { rows ≤ most_windows },
    ghost whole: { length bytes.now ≡ table_size rows },
}

impl<'a> Table<'a> {
    // The bits of the float at a place.
    fn bits_at(self, at: usize) -> u64
        requires { at + float_size ≤ length self.bytes.now }
        ensures { result ≡ word_at float_size self.entry.bytes.now at }
    {
        word_of(&self.bytes[at..at + FLOAT_SIZE])
    }

    // Row i. 7 is decided before a float is made of the bits.
    pub(crate) fn row(self, i: usize) -> Result<Window, Refusal>
        requires { i < self.rows }
        ensures { of_result result ≡ row_at self.entry.bytes.now self.entry.rows i }
    {
        let start = self.bits_at(HEADER_SIZE + FLOAT_SIZE * i);
        if is_special(start, Width::Binary64) {
            return Err(Reason::NotFinite.at(i));
        }
        let end = self.bits_at(HEADER_SIZE + FLOAT_SIZE * self.rows + FLOAT_SIZE * i);
        if is_special(end, Width::Binary64) {
            return Err(Reason::NotFinite.at(i));
        }
        let window = Window {
            start: f64::from_bits(start),
            end: f64::from_bits(end),
        };
        outage::check_window(window).map_err(|refusal| refusal.reason.at(i))
    }

    // Every row, one after the other.
    pub(crate) fn check(self) -> Result<(), Refusal>
        ensures { AreRows result (rows_from self.entry.bytes.now self.entry.rows 0 self.entry.rows) }
    {
        for i in 0..self.rows {
            self.row(i)?;
        }
        Ok(())
    }
}
