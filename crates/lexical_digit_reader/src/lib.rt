// The reader keeps the text and the place it has reached: document 01, "Integer digits".
#![tactic(auto)]

ghost use Rattle.std.specs.Prelude.{◌≡◌};
ghost use Rattle.lexical_digit_reader.specs.Place.{digit_at, place_after};

use lexical_util::digit_value;

// A text, and the place reached in it. The place may lie past the text's end: no digit stands there.
#[derive(Clone, Copy)]
pub struct Reader<'a> {
    pub text: &'a [u8],
    pub at: usize,
}

// What stood at a place, and the place reached behind it.
#[derive(Clone, Copy)]
pub struct NextDigit {
    pub digit: Option<u8>,
    pub at: usize,
}

impl<'a> Reader<'a> {
    // A reader of the text that has reached the place.
    pub fn new(text: &'a [u8], at: usize) -> Reader<'a>
        ensures { (result.text ≡ text.entry) × (result.at ≡ at) }
    {
        Reader { text, at }
    }

    // The digit value of the next byte; none at the text's end and past it.
    #[tactic(auto, unfolding(crate::specs::Place::digit_at))]
    pub fn digit(self) -> Option<u8>
        ensures { result ≡ digit_at self.entry.text.now self.entry.at }
    {
        if self.at < self.text.len() {
            digit_value(self.text[self.at])
        } else {
            None
        }
    }

    // The reader one byte further, if there is one.
    #[tactic(auto, unfolding(crate::specs::Place::place_after))]
    pub fn step(self) -> Reader<'a>
        ensures { (result.text ≡ self.entry.text) × (result.at ≡ place_after self.entry.text.now self.entry.at) }
    {
        if self.at < self.text.len() {
            return Reader::new(self.text, self.at + 1);
        }
        self
    }
}

// The digit value of the byte at a place, and the place behind it. Its parameters are plain, so that its callers need no reader.
pub fn next_digit(text: &[u8], at: usize) -> NextDigit
    ensures { (result.digit ≡ digit_at text.now at) × (result.at ≡ place_after text.now at) }
{
    let reader = Reader::new(text, at);
    NextDigit {
        digit: reader.digit(),
        at: reader.step().at,
    }
}
